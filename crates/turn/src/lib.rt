// A turn counts units of pi/4, so turns are numbers modulo 8. A byte holds one, and may hold it unreduced.
#![tactic(auto)]

ghost use Rattle.std.specs.Prelude.{◌≡◌, ◌+◌, ◌-◌, ◌%◌};
ghost use Rattle.rules.specs.Meaning.{turn8};
ghost use Rattle.rules.specs.Fold as Fold;

// A signed turn of 32 bits, reduced to 0..7: the remainder by 8, corrected where it is negative.
// Stays: by the remainder and not by `rem_euclid`, since document 01 names this form.
pub fn reduce(t: i32) -> u8
    ensures { result ≡ turn8 t }
{
    let m = t % 8;
    if m < 0 { (m + 8) as u8 } else { m as u8 }
}

// A sum of turns. It wraps at 256, a multiple of 8.
pub fn add(a: u8, b: u8) -> u8
    ensures { result ≡ (a + b) % 256 }
{
    a.wrapping_add(b)
}

// The negated turn: zero minus the turn, which wraps too.
// Stays: a subtraction from zero and not `wrapping_neg`, since document 01 names this form.
pub fn negate(a: u8) -> u8
    ensures { result ≡ (256 - a) % 256 }
{
    0u8.wrapping_sub(a)
}

// The turn as a wire's constant has it: behind an x a phase turns the other way.
pub fn signed(flips: bool, k: u8) -> u8
    ensures { result ≡ Fold.signed flips k }
{
    let turned = negate(k) % 8;
    if flips { turned } else { k % 8 }
}

// A turn folded onto that of a term.
pub fn fold(old: u8, k: u8) -> u8
    ensures { result ≡ (old + k) % 8 }
{
    add(old, k) % 8
}
