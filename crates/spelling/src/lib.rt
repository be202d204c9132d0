// A list spelled as a text, both ways: the definitions that reading and printing share, and the laws that each undoes the other.
// Of code, a list's head and its form, what ends a number of a line, and the sizes of the programs that take a text, each by name and once.
#![tactic(auto)]

ghost use Rattle.std.specs.Prelude.{◌≡◌, cond, ◌+◌, ◌-◌, ◌<◌, eqb, length};
ghost use Rattle.text.specs.Bytes.{lf, blank};
ghost use Rattle.spelling.specs.Sizes as Sizes;
ghost use Rattle.spelling.specs.Texts as Texts;
ghost use Rattle.spelling.specs.Forms.{form_of};

use rules::GATE_WIDTH;

// Bytes of a text, gates of its list, bytes of the room for an answer.
pub const LIST_BYTES: usize = 32768;

pub const LIST_GATES: usize = 896;

pub const ANSWER_BYTES: usize = 12 * (GATE_WIDTH * LIST_GATES) + 256;

// How a list is spelled: `head 4`; `head 5` whose fifth number is 5; `head 5` whose fifth number is 6.
#[derive(Clone, Copy, Debug, PartialEq, Eq)]
pub enum Form {
    Four,
    Five,
    Six,
}

impl Form {
    // How many numbers the head has.
    pub fn head_numbers(self) -> usize
        ensures { result ≡ 4 + length (Texts.fifth (form_of self)) }
    {
        match self {
            Form::Four => 4,
            Form::Five | Form::Six => 5,
        }
    }

    // How many of a gate's numbers its line shows.
    pub fn per_gate(self) -> usize
        ensures { result ≡ Texts.per_gate (form_of self) }
    {
        match self {
            Form::Four | Form::Five => GATE_WIDTH - 1,
            Form::Six => GATE_WIDTH,
        }
    }
}

// A form by its number: that of `head 4`, and the fifth number of `head 5`. Every number has a meaning: below 4 is as 4, above 6 as 6.
impl From<u32> for Form {
    ghost from_gives = { λ n form. form_of form ≡ Texts.form_of n };

    fn from(n: u32) -> Form {
        match n {
            0..=4 => Form::Four,
            5 => Form::Five,
            _ => Form::Six,
        }
    }
}

// As read: neither cap is clamped.
#[derive(Clone, Copy)]
pub struct Head {
    pub wires: u32,
    pub bits: u32,
    pub qubits: u32,
    pub terms: u32,
    pub form: Form,
}

// What ends number k of a line of n.
pub fn end_of(k: usize, n: usize) -> u8
    requires { k < n }
    ensures { result ≡ cond (eqb (n - (k + 1)) 0) lf blank }
{
    if k + 1 < n { b' ' } else { b'\n' }
}

// The sizes in one value, so that one statement says that the code's are the definitions'.
#[derive(Clone, Copy)]
pub struct Fixed {
    pub bytes: usize,
    pub gates: usize,
    pub answer: usize,
}

pub fn sizes() -> Fixed
    ensures { result ≡ record { bytes = Sizes.list_bytes; gates = Sizes.list_gates; answer = Sizes.answer_bytes } }
{
    Fixed {
        bytes: LIST_BYTES,
        gates: LIST_GATES,
        answer: ANSWER_BYTES,
    }
}
