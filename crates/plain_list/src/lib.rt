// The plain engine text to text: a list read, checked, every resynthesis written to its end and then compared, and printed as the list program prints it.
#![tactic(auto)]

ghost use Rattle.plain_list.specs.Answer.{plain_exact};
ghost use Rattle.plain_list.specs.Clauses.{Plains};

use cnot_min::Counts;
use fitting::Engine;
use gate::Refusal;
use list::ByEngine;
use rules::{GATE_WIDTH, WHOLE_GATES};
use saying::Said;
use spelling::{ANSWER_BYTES, Head};

// The engine that writes every resynthesis to its end, in a room of its own.
pub struct Plain;

impl Engine for Plain {
    ghost judge = { plain_exact };

    fn pass(
        numbers: &[i32],
        head: Head,
        new: &mut [i32],
        terms: &mut [u64],
        steps: &mut [u32],
    ) -> Result<Counts, Refusal> {
        let mut whole = [0i32; GATE_WIDTH * WHOLE_GATES];
        plain::cnot_min_plain(
            numbers,
            head.wires as usize,
            head.bits as usize,
            head.qubits as usize,
            head.terms as usize,
            new,
            terms,
            steps,
            &mut whole,
        )
    }
}

// Every text gets an answer.
pub fn plain_list(text: &[u8], out: &mut [u8; ANSWER_BYTES]) -> Said
    ensures { Plains text.now out.old result out.new }
{
    saying::answer::<ByEngine<Plain>>(text, out)
}
