// A laboratory's text shortened in one go: read, each block of its gates written again where that is cheaper, and printed as a laboratory's text.
#![tactic(auto)]

ghost use Rattle.std.proofs.Math.Nat.{le_refl};
ghost use Rattle.spelling.specs.Sizes.{answer_bytes};
ghost use Rattle.import.specs.Answer as Import;
ghost use Rattle.import.specs.Clauses.{right};
ghost use Rattle.shorten.specs.Answer as Paper;
ghost use Rattle.shorten.specs.Clauses.{Shortens};

use fitting::CnotMin;
use rules::GATE_WIDTH;
use saying::{Program, Reason, Said};
use spelling::{ANSWER_BYTES, Head, LIST_GATES};

// The program.
struct Minimize;

impl Program for Minimize {
    ghost by = { Import.answer_by };

    ghost right = { right };

    ghost next = { Paper.shortened };

    ghost room = { answer_bytes };

    fn take(text: &[u8], numbers: &mut [i32]) -> Result<(Head, usize), Reason> {
        import::take(text, numbers)
    }

    // A list that was read from a laboratory's text is accepted, so that no refusal can come here.
    fn say(numbers: &[i32], head: Head, out: &mut [u8]) -> Said {
        let mut new = [0i32; GATE_WIDTH * LIST_GATES];
        match fitting::minimize::<CnotMin>(numbers, head, &mut new) {
            Ok(c) => Said {
                length: qasm::write_qasm(
                    out,
                    0,
                    head.wires,
                    head.bits,
                    &new[..GATE_WIDTH * c.gatesout],
                ),
                refused: false,
            },
            Err(r) => saying::decline(out, Reason::List(r)),
        }
    }

    ghost roomy = { le_refl answer_bytes };
}

// Every text gets an answer.
pub fn shorten(text: &[u8], out: &mut [u8; ANSWER_BYTES]) -> Said
    ensures { Shortens text.now out.old result out.new }
{
    saying::answer::<Minimize>(text, out)
}
