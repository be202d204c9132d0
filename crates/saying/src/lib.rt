// What the programs that take a text share: an answer in a lent room, why a text is refused, a list's text taken, and the way from a text to its answer.
#![tactic(auto)]

ghost use Rattle.std.specs.Prelude.{◌≡◌, [], ◌∷◌, ◌*◌, ◌^◌, ◌≤◌, ◌<◌, List, ℕ, ℤ, length};
ghost use Rattle.rules.specs.Limits.{width};
ghost use Rattle.spelling.specs.Sizes.{list_gates, answer_bytes};
ghost use Rattle.spelling.specs.Texts as Texts;
ghost use Rattle.spelling.specs.Heads.{head_of};
ghost use Rattle.saying.specs.Answer as Paper;
ghost use Rattle.saying.specs.Answer.{refusal};
ghost use Rattle.saying.specs.declared.Reason.TheVariants as Reasons;
ghost use Rattle.saying.specs.Reasons.{reason_of, place_of, three, told};
ghost use Rattle.saying.specs.Clauses.{Says, Few, Takes, Given};

use gate::Refusal;
use reading::Wrong;
use rules::GATE_WIDTH;
use spelling::{Head, LIST_BYTES, LIST_GATES};

// How many bytes were printed, and whether they are a refusal.
// Stays: the programs and the C interface read the length of both alike, and a match would stand before each.
#[derive(Clone, Copy)]
pub struct Said {
    pub length: usize,
    pub refused: bool,
}

// Why a text is refused: it is too long; a line is malformed, missing or surplus; too many gates, by the line of their count, or 0; a line or a gate has no
// spelling; or the list itself is refused.
#[derive(Clone, Copy)]
pub enum Reason {
    Long,
    Malformed(usize),
    Many(usize),
    Unspelled(usize),
    List(Refusal),
}

impl Reason {
    // Number, place and field.
    pub fn numbers(self) -> [u32; 3]
        requires { place_of self < 2 ^ 32 }
        ensures { result ≡ three self }
    {
        match self {
            Reason::Long => [10, 0, 0],
            Reason::Malformed(line) => [11, line as u32, 0],
            Reason::Many(line) => [12, line as u32, 0],
            Reason::Unspelled(place) => [13, place as u32, 0],
            Reason::List(r) => [
                r.fault.number() as u32,
                r.place as u32,
                r.fault.field() as u32,
            ],
        }
    }
}

impl From<Refusal> for Reason {
    ghost from_gives = { λ r e. e ≡ Reasons.List r };

    fn from(r: Refusal) -> Reason {
        Reason::List(r)
    }
}

impl From<Wrong> for Reason {
    ghost from_gives = { λ w e. e ≡ reason_of w };

    fn from(w: Wrong) -> Reason {
        match w {
            Wrong::Line(line) => Reason::Malformed(line),
            Wrong::Many(line) => Reason::Many(line),
        }
    }
}

// Number, place and field.
pub fn refuse(out: &mut [u8], number: u32, place: u32, field: u32) -> Said
    requires { answer_bytes ≤ length out.old }
    ensures { Says (refusal number place field) out.old result out.new }
{
    Said {
        length: printing::write_refusal(out, 0, &[number, place, field]),
        refused: true,
    }
}

// What is printed for a reason.
pub fn decline(out: &mut [u8], reason: Reason) -> Said
    requires room { answer_bytes ≤ length out.old }
    requires fits { place_of reason < 2 ^ 32 }
    ensures { Says (told reason) out.old result out.new }
{
    let [number, place, field] = reason.numbers();
    refuse(out, number, place, field)
}

// 10, then line by line: the head, and how many gates. Their numbers go into the room.
pub fn take(text: &[u8], numbers: &mut [i32]) -> Result<(Head, usize), Reason>
    requires { width * list_gates ≤ length numbers.old }
    ensures { Takes text.now numbers.new result }
{
    if LIST_BYTES < text.len() {
        return Err(Reason::Long);
    }
    Ok(reading::read_text(text, LIST_GATES, numbers)?)
}

// A program from text to text: how it takes a text, what is known of a list that was read, and what it says of one.
pub trait Program {
    ghost by: { Paper.Next → List ℕ → Paper.Answer };

    ghost right: { Texts.Head → List ℤ → Type 0 };

    ghost next: { Paper.Next };

    ghost room: { ℕ };

    fn take(text: &[u8], numbers: &mut [i32]) -> Result<(Head, usize), Reason>
        requires { width * list_gates ≤ length numbers.old }
        ensures { Given by right text.now numbers.new result };

    fn say(numbers: &[i32], head: Head, out: &mut [u8]) -> Said
        requires few { Few numbers.now }
        requires right { right (head_of head) numbers.now }
        requires fits { room ≤ length out.old }
        ensures { Says (next (head_of head) numbers.now) out.old result out.new };

    // A refusal has room too.
    ghost roomy: { answer_bytes ≤ room };
}

// The answer to a text: a refusal, or what the program says of its list.
pub fn answer<P: Program>(text: &[u8], out: &mut [u8]) -> Said
    requires { P.room ≤ length out.old }
    ensures { Says (P.by P.next text.now) out.old result out.new }
{
    let mut numbers = [0i32; GATE_WIDTH * LIST_GATES];
    match P::take(text, &mut numbers) {
        Ok((head, n)) => P::say(&numbers[..GATE_WIDTH * n], head, out),
        Err(reason) => decline(out, reason),
    }
}
