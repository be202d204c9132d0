// The entry point text to text: a list read, checked, each of its blocks written again where that is cheaper, and printed.
#![tactic(auto)]

ghost use Rattle.std.specs.Prelude.{◌*◌, ◌≤◌, length};
ghost use Rattle.std.proofs.Math.Nat.{le_refl};
ghost use Rattle.rules.specs.Limits.{width};
ghost use Rattle.spelling.specs.Sizes.{list_gates, answer_bytes};
ghost use Rattle.spelling.specs.Texts.{result_text};
ghost use Rattle.spelling.specs.Heads.{head_of};
ghost use Rattle.cnot_min.specs.Minimizing.{counted};
ghost use Rattle.saying.specs.Answer.{answered, judged_by, answer_by};
ghost use Rattle.saying.specs.Clauses.{Says, any_list};
ghost use Rattle.fitting.specs.Clauses.{Small};
ghost use Rattle.list.specs.Answer as Paper;
ghost use Rattle.list.specs.Clauses.{Lists};

use cnot_min::Counts;
use fitting::{CnotMin, Engine};
use rules::GATE_WIDTH;
use saying::{Program, Reason, Said};
use spelling::{ANSWER_BYTES, Head, LIST_GATES};
use std::marker::PhantomData;

// The head as read, the new gates, and their counts.
pub fn print(out: &mut [u8], head: Head, numbers: &[i32], c: Counts) -> Said
    requires answer_bytes_in_bounds { (answer_bytes ≤ length out.old) × (length numbers.now ≤ width * list_gates) }
    requires small { Small c }
    ensures { Says (answered (result_text (head_of head) numbers.now (Paper.count_numbers (counted c)))) out.old result out.new }
{
    let counts = [
        c.gatesin as u32,
        c.gatesout as u32,
        c.twosin as u32,
        c.twosout as u32,
        c.tin as u32,
        c.tout as u32,
        c.blocks as u32,
        c.replaced as u32,
    ];
    Said {
        length: printing::write_result(out, 0, head, numbers, &counts),
        refused: false,
    }
}

// The program, by an engine.
pub struct ByEngine<E> {
    engine: PhantomData<E>,
}

impl<E: Engine> Program for ByEngine<E> {
    ghost by = { answer_by };

    ghost right = { any_list };

    ghost next = { judged_by E.judge Paper.shortened };

    ghost room = { answer_bytes };

    fn take(text: &[u8], numbers: &mut [i32]) -> Result<(Head, usize), Reason> {
        saying::take(text, numbers)
    }

    // Refused as the engine refuses it, or the head, the new gates and their counts.
    fn say(numbers: &[i32], head: Head, out: &mut [u8]) -> Said {
        let mut new = [0i32; GATE_WIDTH * LIST_GATES];
        match fitting::minimize::<E>(numbers, head, &mut new) {
            Ok(c) => print(out, head, &new[..GATE_WIDTH * c.gatesout], c),
            Err(r) => saying::decline(out, Reason::List(r)),
        }
    }

    ghost roomy = { le_refl answer_bytes };
}

// Every text gets an answer.
pub fn list(text: &[u8], out: &mut [u8; ANSWER_BYTES]) -> Said
    ensures { Lists text.now out.old result out.new }
{
    saying::answer::<ByEngine<CnotMin>>(text, out)
}
