// The pass over a list that was read, in rooms exactly as long as it needs, by either engine; and what its gates then are.
#![tactic(auto)]

ghost use Rattle.std.specs.Prelude.{◌≡◌, ◌*◌, ◌/◌, ◌≤◌, length};
ghost use Rattle.rules.specs.Limits.{width, term_width, step_width, term_entries, step_entries};
ghost use Rattle.spelling.specs.Sizes.{list_gates};
ghost use Rattle.spelling.specs.Heads.{head_of};
ghost use Rattle.saying.specs.Answer as Saying;
ghost use Rattle.saying.specs.Clauses.{Few};
ghost use Rattle.fitting.specs.Clauses.{Exact, Fits};

use cnot_min::Counts;
use gate::Refusal;
use rules::{GATE_TERMS, GATE_WIDTH, MAX_COLUMNS, STEP_WIDTH, TERM_WIDTH};
use spelling::{Head, LIST_GATES};

// An engine of the pass: what it refuses a list by, and the pass in rooms exactly as long as the list needs. The new gates' numbers go into the first.
pub trait Engine {
    ghost judge: { Saying.Judge };

    fn pass(
        numbers: &[i32],
        head: Head,
        new: &mut [i32],
        terms: &mut [u64],
        steps: &mut [u32],
    ) -> Result<Counts, Refusal>
        requires few { Few numbers.now }
        requires exact { Exact numbers.now new.old terms.old steps.old }
        ensures { Fits judge (head_of head) numbers.now result new.new };
}

// The engine that gives up a writing as soon as it is too dear.
pub struct CnotMin;

impl Engine for CnotMin {
    ghost judge = { Saying.exact };

    fn pass(
        numbers: &[i32],
        head: Head,
        new: &mut [i32],
        terms: &mut [u64],
        steps: &mut [u32],
    ) -> Result<Counts, Refusal> {
        cnot_min::cnot_min_with(
            numbers,
            head.wires as usize,
            head.bits as usize,
            head.qubits as usize,
            head.terms as usize,
            new,
            terms,
            steps,
        )
    }
}

// The new gates' numbers go into the room.
pub fn minimize<E: Engine>(numbers: &[i32], head: Head, new: &mut [i32]) -> Result<Counts, Refusal>
    requires few { Few numbers.now }
    requires list_gates_in_bounds { width * list_gates ≤ length new.old }
    ensures { Fits E.judge (head_of head) numbers.now result new.new }
{
    let g = numbers.len() / GATE_WIDTH;
    let mut terms = [0u64; TERM_WIDTH * (GATE_TERMS * LIST_GATES)];
    let mut steps = [0u32; STEP_WIDTH * (LIST_GATES + MAX_COLUMNS)];
    E::pass(
        numbers,
        head,
        &mut new[..GATE_WIDTH * g],
        &mut terms[..TERM_WIDTH * (GATE_TERMS * g)],
        &mut steps[..STEP_WIDTH * (g + MAX_COLUMNS)],
    )
}
