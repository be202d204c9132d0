// Import: a laboratory's text, OpenQASM 2.0, as our list's text, or its refusal.
#![tactic(auto)]

ghost use Rattle.std.specs.Prelude.{◌≡◌, ◌*◌, ◌≤◌, length};
ghost use Rattle.std.proofs.Math.Nat.{le_refl};
ghost use Rattle.rules.specs.Limits.{width};
ghost use Rattle.spelling.specs.Sizes.{list_gates, answer_bytes};
ghost use Rattle.import.specs.Answer as Paper;
ghost use Rattle.import.specs.Clauses.{reason_of, right, Takes, Imports};

use gate::{Fault, Refusal};
use qasm::Wrong;
use saying::{Program, Reason, Said};
use spelling::{ANSWER_BYTES, Form, Head, LIST_BYTES, LIST_GATES};

// The caps of a list that comes from a laboratory.
pub const QUBIT_CAP: u32 = 128;

pub const TERM_CAP: u32 = 512;

// Why a laboratory's text isn't read.
fn reason_of(w: Wrong) -> Reason
    ensures { result ≡ reason_of w }
{
    match w {
        Wrong::Line(line) => Reason::Unspelled(line),
        Wrong::Many => Reason::Many(0),
        Wrong::Large => Reason::List(Refusal {
            fault: Fault::Limits,
            place: 0,
        }),
    }
}

// 10, then line by line 13, then 12 and 3: the head, and how many gates. Their numbers go into the room.
pub fn take(text: &[u8], numbers: &mut [i32]) -> Result<(Head, usize), Reason>
    requires { width * list_gates ≤ length numbers.old }
    ensures { Takes text.now numbers.new result }
{
    if LIST_BYTES < text.len() {
        return Err(Reason::Long);
    }
    match qasm::read_qasm(text, LIST_GATES, numbers) {
        Ok((wires, bits, n)) => {
            // `head 5` with 6: each gate shows its line
            let head = Head {
                wires,
                bits,
                qubits: QUBIT_CAP,
                terms: TERM_CAP,
                form: Form::Six,
            };
            Ok((head, n))
        }
        Err(w) => Err(reason_of(w)),
    }
}

// The program.
struct Translate;

impl Program for Translate {
    ghost by = { Paper.answer_by };

    ghost right = { right };

    ghost next = { Paper.translated };

    ghost room = { answer_bytes };

    fn take(text: &[u8], numbers: &mut [i32]) -> Result<(Head, usize), Reason> {
        take(text, numbers)
    }

    // The list, as it was read, with no counts.
    fn say(numbers: &[i32], head: Head, out: &mut [u8]) -> Said {
        Said {
            length: printing::write_list(out, 0, head, numbers),
            refused: false,
        }
    }

    ghost roomy = { le_refl answer_bytes };
}

// Every text gets an answer.
pub fn import(text: &[u8], out: &mut [u8; ANSWER_BYTES]) -> Said
    ensures { Imports text.now out.old result out.new }
{
    saying::answer::<Translate>(text, out)
}
