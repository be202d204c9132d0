// Numbers, words and lines of a text: read from a place on, and written into a lent room.
#![tactic(auto)]

ghost use Rattle.std.specs.Prelude.{◌≡◌, [], ◌∷◌, ◌+◌, ◌-◌, ◌*◌, ◌≤◌, ◌<◌, min, length, drop};
ghost use Rattle.text.specs.Bytes as Bytes;
ghost use Rattle.text.specs.Printing as Printing;
ghost use Rattle.text.specs.Reading as Reading;
ghost use Rattle.text.specs.Clauses.{Reads, Leaves, Writes, Prints, top, line_size, named_size};

// The largest number of a text.
const LARGEST: u32 = 2147483647;

// ---- reading: what stands at the front of a text, and the text behind it; nothing where it doesn't stand there

// One digit more. It stays at the largest u32, which is past every limit; below '0' stands for 0, as in the definition.
fn grown(v: u32, b: u8) -> u32
    ensures { result ≡ min top (10 * v + (b - Bytes.nought)) }
{
    let d = b.saturating_sub(b'0');
    v.saturating_mul(10).saturating_add(d as u32)
}

// Where the digits at the front end. Any number of them may come.
#[tactic(auto, unfolding(crate::specs::Reading::digits))]
fn split_digits(text: &[u8]) -> (&[u8], &[u8])
    ensures digits { result.0.now ≡ Reading.digits text.now }
    ensures rest { result.1.now ≡ drop (length (Reading.digits text.now)) text.now }
{
    let n = text
        .iter()
        .position(|b| !b.is_ascii_digit())
        .unwrap_or(text.len());
    text.split_at(n)
}

// What digits are worth, or the largest u32 where that is more.
#[tactic(auto, unfolding(crate::specs::Reading::worth))]
fn worth(digits: &[u8]) -> u32
    ensures { result ≡ min top (Reading.worth 0 digits.now) }
{
    let mut v = 0;
    for &b in digits {
        v = grown(v, b);
    }
    v
}

// At least one digit, and a 0 in front stands alone.
fn is_proper(digits: &[u8]) -> bool
    ensures { result ≡ Reading.proper digits.now }
{
    match digits {
        [] => false,
        [_] => true,
        [first, ..] => *first != b'0',
    }
}

#[tactic(auto, unfolding(crate::specs::Reading::up_to))]
fn read_up_to(text: &[u8], most: u32) -> Option<(u32, &[u8])>
    requires { most < top }
    ensures { Reads result (Reading.up_to most text.now) }
{
    let (digits, rest) = split_digits(text);
    let value = worth(digits);
    if is_proper(digits) && value <= most {
        Some((value, rest))
    } else {
        None
    }
}

// A number from 0 to 2,147,483,647.
#[tactic(auto, unfolding(crate::specs::Reading::natural))]
pub fn read_natural(text: &[u8]) -> Option<(u32, &[u8])>
    ensures { Reads result (Reading.natural text.now) }
{
    read_up_to(text, LARGEST)
}

// A number of 32 signed bits. There is no -0.
#[tactic(auto, unfolding(crate::specs::Reading::integer))]
pub fn read_integer(text: &[u8]) -> Option<(i32, &[u8])>
    ensures { Reads result (Reading.integer text.now) }
{
    let Some(unsigned) = read_byte(text, b'-') else {
        let (value, rest) = read_natural(text)?;
        return Some((value as i32, rest));
    };
    let (value, rest) = read_up_to(unsigned, LARGEST + 1)?;
    if value == 0 {
        return None;
    }
    Some((0i32.checked_sub_unsigned(value)?, rest))
}

#[tactic(auto, unfolding(crate::specs::Reading::word))]
pub fn read_byte(text: &[u8], b: u8) -> Option<&[u8]>
    ensures { Leaves tt result (Reading.word (b ∷ []) text.now) }
{
    match text.split_first() {
        Some((&first, rest)) if first == b => Some(rest),
        _ => None,
    }
}

#[tactic(auto, unfolding(crate::specs::Reading::word))]
pub fn read_word<'a>(text: &'a [u8], w: &[u8]) -> Option<&'a [u8]>
    ensures { Leaves tt result (Reading.word w.now text.now) }
{
    text.strip_prefix(w)
}

// A signed number and the byte that must end it.
#[tactic(auto, unfolding(crate::specs::Reading::ended))]
pub fn read_ended(text: &[u8], end: u8) -> Option<(i32, &[u8])>
    ensures { Reads result (Reading.ended end text.now) }
{
    let (v, rest) = read_integer(text)?;
    let rest = read_byte(rest, end)?;
    Some((v, rest))
}

// A line of one number.
#[tactic(auto, unfolding(crate::specs::Reading::natural_line))]
pub fn read_line(text: &[u8]) -> Option<(u32, &[u8])>
    ensures { Reads result (Reading.natural_line text.now) }
{
    let (n, rest) = read_natural(text)?;
    let rest = read_byte(rest, b'\n')?;
    Some((n, rest))
}

// A line of a word and a count, with one blank between.
#[tactic(auto, unfolding(crate::specs::Reading::count_line))]
pub fn read_count<'a>(text: &'a [u8], w: &[u8]) -> Option<(u32, &'a [u8])>
    ensures { Reads result (Reading.count_line w.now text.now) }
{
    let rest = read_word(text, w)?;
    let rest = read_byte(rest, b' ')?;
    read_line(rest)
}

// ---- printing: the bytes go into a lent room from a place on, and the place behind them is handed back.
// Stays: C lends the room, and its part behind the answer must stay as it was, so that each writer takes the whole room and a place.

pub fn write_byte(out: &mut [u8], at: usize, b: u8) -> usize
    requires { at + 1 ≤ length out.old }
    ensures { Writes (b ∷ []) out.old at out.new result }
{
    out[at] = b;
    at + 1
}

pub fn write_word(out: &mut [u8], at: usize, w: &[u8]) -> usize
    requires { at + length w.now ≤ length out.old }
    ensures { Writes w.now out.old at out.new result }
{
    let next = at + w.len();
    out[at..next].copy_from_slice(w);
    next
}

// How many digits it has.
fn count_digits(n: u32) -> usize
    ensures { result ≡ length (Printing.decimal n) }
{
    n.max(1).ilog10() as usize + 1
}

fn digit(d: u32) -> u8
    requires { d < 10 }
    ensures { result ≡ Printing.digit d }
{
    b'0' + d as u8
}

// The last digit is written first.
pub fn write_natural(out: &mut [u8], at: usize, n: u32) -> usize
    requires { at + length (Printing.decimal n) ≤ length out.old }
    ensures { Writes (Printing.decimal n) out.old at out.new result }
{
    let next = at + count_digits(n);
    let mut left = n;
    for i in (at..next).rev() {
        out[i] = digit(left % 10);
        left /= 10;
    }
    next
}

pub fn write_integer(out: &mut [u8], at: usize, v: i32) -> usize
    requires { at + length (Printing.printed v) ≤ length out.old }
    ensures { Writes (Printing.printed v) out.old at out.new result }
{
    let size = v.unsigned_abs();
    if v.is_negative() {
        let next = write_byte(out, at, b'-');
        write_natural(out, next, size)
    } else {
        write_natural(out, at, size)
    }
}

// A signed number and the byte that ends it.
pub fn write_ended(out: &mut [u8], at: usize, v: i32, end: u8) -> usize
    requires { at + length (Printing.ended_text end v) ≤ length out.old }
    ensures { Writes (Printing.ended_text end v) out.old at out.new result }
{
    let next = write_integer(out, at, v);
    write_byte(out, next, end)
}

// A line of one number.
pub fn write_line(out: &mut [u8], at: usize, n: u32) -> usize
    requires { at + length (Printing.line_text n) ≤ length out.old }
    ensures { Writes (Printing.line_text n) out.old at out.new result }
{
    let next = write_natural(out, at, n);
    write_byte(out, next, b'\n')
}

// A number after one blank.
fn write_spaced(out: &mut [u8], at: usize, n: u32) -> usize
    requires { at + length (Printing.spaced_text n) ≤ length out.old }
    ensures { Writes (Printing.spaced_text n) out.old at out.new result }
{
    let next = write_byte(out, at, b' ');
    write_natural(out, next, n)
}

// Numbers, each after one blank.
fn write_all_spaced(out: &mut [u8], at: usize, numbers: &[u32]) -> usize
    requires { at + line_size * length numbers.now ≤ length out.old }
    ensures { Prints (line_size * length numbers.now) (Printing.all_spaced numbers.now) out.old at out.new result }
{
    let mut next = at;
    for &n in numbers {
        next = write_spaced(out, next, n);
    }
    next
}

// A line of a word and numbers, each after one blank.
pub fn write_named(out: &mut [u8], at: usize, w: &[u8], numbers: &[u32]) -> usize
    requires { at + named_size (length w.now) (length numbers.now) ≤ length out.old }
    ensures { Prints (named_size (length w.now) (length numbers.now)) (Printing.named_text w.now numbers.now) out.old at out.new result }
{
    let first = write_word(out, at, w);
    let last = write_all_spaced(out, first, numbers);
    write_byte(out, last, b'\n')
}
