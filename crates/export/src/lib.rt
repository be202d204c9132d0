// Export: our list's text as a laboratory's, OpenQASM 2.0, or its refusal.
#![tactic(auto)]

ghost use Rattle.std.proofs.Math.Nat.{le_refl};
ghost use Rattle.spelling.specs.Sizes.{answer_bytes};
ghost use Rattle.spelling.specs.Heads.{head_of};
ghost use Rattle.saying.specs.Answer.{checked, answer_by};
ghost use Rattle.saying.specs.Clauses.{any_list, Few};
ghost use Rattle.export.specs.Answer as Paper;
ghost use Rattle.export.specs.Clauses.{Spells, Exports};

use rules::{GATE_TERMS, GATE_WIDTH, MAX_COLUMNS, STEP_WIDTH, TERM_WIDTH};
use saying::{Program, Reason, Said};
use spelling::{ANSWER_BYTES, Head, LIST_GATES};

// Checked as the list program does; then 13 with the first gate that isn't spelled.
fn check(numbers: &[i32], head: Head) -> Result<(), Reason>
    requires { Few numbers.now }
    ensures { Spells (head_of head) numbers.now result }
{
    let n = numbers.len();
    let g = n / GATE_WIDTH;
    gate::check_list(
        numbers,
        head.wires as usize,
        head.bits as usize,
        n,
        TERM_WIDTH * (GATE_TERMS * g),
        STEP_WIDTH * (g + MAX_COLUMNS),
    )?;
    match qasm::unspelled(numbers) {
        Some(first) => Err(Reason::Unspelled(first)),
        None => Ok(()),
    }
}

// The program.
struct Translate;

impl Program for Translate {
    ghost by = { answer_by };

    ghost right = { any_list };

    ghost next = { checked Paper.translated };

    ghost room = { answer_bytes };

    fn take(text: &[u8], numbers: &mut [i32]) -> Result<(Head, usize), Reason> {
        saying::take(text, numbers)
    }

    fn say(numbers: &[i32], head: Head, out: &mut [u8]) -> Said {
        match check(numbers, head) {
            Ok(()) => Said {
                length: qasm::write_qasm(out, 0, head.wires, head.bits, numbers),
                refused: false,
            },
            Err(reason) => saying::decline(out, reason),
        }
    }

    ghost roomy = { le_refl answer_bytes };
}

// Every text gets an answer.
pub fn export(text: &[u8], out: &mut [u8; ANSWER_BYTES]) -> Said
    ensures { Exports text.now out.old result out.new }
{
    saying::answer::<Translate>(text, out)
}
