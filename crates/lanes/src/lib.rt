// Turns summed for one wire with all others at once: on it modulo 8, on it and a second modulo 4, on it and two others modulo 2.
#![tactic(auto)]

ghost use Rattle.std.specs.Prelude.{◌≡◌, not, cond, [], ◌∷◌, ◌%◌, ◌≤◌, ◌<◌, ltb, length};
ghost use Rattle.rules.specs.Bit.{bit};
ghost use Rattle.rules.specs.Meaning.{when1};
ghost use Rattle.parity.specs.View.{val};
ghost use Rattle.rows.specs.Rows.{rows_of};
ghost use Rattle.acting.specs.Alike.{each};
ghost use Rattle.lanes.specs.Lanes.{half, term, Inside, Beside, Adds, None, Notes, even_rows, Settles};

use parity::Parity;

// The digits of a word. Of any three wires two are of one word, so a wire's second ones are looked for in its own word only.
const HALF: u32 = 64;

// The rows that the second wires of one word have.
pub const ROWS: usize = 64;

// For one wire: the sum of the turns on it; by second wire, the two digits of the sum modulo 4; by second wire of its own word, the sum of the parities
// with an odd turn.
#[derive(Clone, Copy)]
pub struct Lanes {
    pub turn: u8,
    pub low: Parity,
    pub high: Parity,
    pub odds: [Parity; ROWS],
}

// The word that has wire i.
fn word(p: Parity, i: u32) -> u64
    ensures { result ≡ cond (ltb i half) p.lo p.hi }
{
    if i < HALF { p.lo } else { p.hi }
}

// Its columns below wire i, moved to the low end.
fn beside(p: Parity, i: u32) -> Parity
    requires { i < 128 }
    ensures { Beside (val p) i (val result) }
{
    let own = Parity {
        lo: word(p, i),
        hi: 0,
    };
    own & Parity::all(i % HALF)
}

// The parity p is added to each of the rows in `chosen`.
fn add_to_rows(m: &mut [Parity], chosen: Parity, p: Parity)
    requires { Inside (val chosen) (length (rows_of m.old)) }
    ensures { Adds (val chosen) (val p) (rows_of m.old) (rows_of m.new) }
{
    let mut left = chosen;
    while !left.is_zero() {
        let at = left.lowest() as usize;
        m[at] = m[at] ^ p;
        left = left.clear_lowest();
    }
}

fn kept(on: bool, k: u8) -> u8
    ensures { result ≡ when1 on k }
{
    if on { k } else { 0 }
}

// None of the columns below n.
fn none_below(p: Parity, n: u32) -> bool
    requires { n ≤ 128 }
    ensures { result ≡ each n (λ k. not (bit (val p) k)) }
{
    (p & Parity::all(n)).is_zero()
}

// No odd turn on three of n wires, of which i is one and the second one of its word below it.
fn even(odds: &[Parity; ROWS], i: u32, n: u32) -> bool
    requires { n ≤ 128 }
    ensures { result ≡ even_rows (i % half) n (rows_of odds.now) }
{
    odds[..(i % HALF) as usize]
        .iter()
        .all(|&row| none_below(row, n))
}

impl Lanes {
    pub fn none() -> Lanes
        ensures { None result }
    {
        Lanes {
            turn: 0,
            low: Parity::zero(),
            high: Parity::zero(),
            odds: [Parity::zero(); ROWS],
        }
    }

    // The turn k on the parity p.
    pub fn note(&mut self, p: Parity, k: u8, i: u32)
        requires { i < 128 }
        ensures { Notes i (term (val p) k ∷ []) self.old self.new }
    {
        let turn = kept(p.has(i), k);
        let one = p.kept(turn % 2 == 1);
        let two = p.kept(turn / 2 % 2 == 1);
        add_to_rows(&mut self.odds, beside(one, i), p);
        self.turn = turn::fold(self.turn, turn);
        self.high = self.high ^ (self.low & one) ^ two;
        self.low = self.low ^ one;
    }

    // The turns on wire i make 0 modulo 8, with a lower wire 0 modulo 4, with two others 0 modulo 2.
    pub fn settled(&self, i: u32, n: u32) -> bool
        requires { (i < 128) × (n ≤ 128) }
        ensures { Settles i n self.now result }
    {
        (self.turn % 8 == 0) & (none_below(self.low | self.high, i) & even(&self.odds, i, n))
    }
}
