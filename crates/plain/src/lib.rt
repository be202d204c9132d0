// The plain engine: every resynthesis is written to its end, and only then compared. Its answer, output and work rooms are those of the first engine
// wherever it is not refused, so the budget of that one decides nothing.
#![tactic(auto)]

ghost use Rattle.std.specs.Prelude.{◌≡◌, pos, length, replicate};
ghost use Rattle.rules.specs.Pass.{writer_of};
ghost use Rattle.plan.specs.View.{view};
ghost use Rattle.cnot_min.specs.Minimizing.{Lent, Rewritable, Rewrites};
ghost use Rattle.plain_scan.specs.Sparing.{Sized};
ghost use Rattle.plain.specs.Plainly.{Shortened, Plainly};

use cnot_min::Counts;
use gate::Refusal;
use plan::Plan;
use rules::{GATE_TERMS, GATE_WIDTH, MAX_COLUMNS, MAX_WIRES, STEP_WIDTH, TERM_WIDTH, WHOLE_GATES};

// An accepted list, in rooms that are exactly what it needs.
// Stays: `cnot_min` has the same steps over three rooms; one function for both would take the scan as a closure, whose contract is longer than this body.
fn rewrite(
    list: &[i32],
    wires: usize,
    out: &mut [i32],
    terms: &mut [u64],
    steps: &mut [u32],
    whole: &mut [i32],
    plan: Plan,
) -> Counts
    requires rewritable { Rewritable (view plan) list.now wires out.old terms.old steps.old }
    requires sized { Sized (view plan) list.now whole.old }
    ensures { Rewrites (writer_of (view plan)) (view plan) list.now result out.new terms.new steps.new × (whole.new ≡ replicate (length whole.old) (pos 0)) }
{
    let mut table = [0u32; MAX_WIRES];
    let s = plain_scan::scan(
        list,
        &mut table[..wires],
        &mut *out,
        &mut *terms,
        &mut *steps,
        &mut *whole,
        plan,
    );
    whole.fill(0);
    cnot_min::finish(list, out, terms, steps, s)
}

// An accepted list: of each room only the part that is needed is lent on, so nothing beyond it is ever written.
fn minimize(
    list: &[i32],
    wires: usize,
    out: &mut [i32],
    terms: &mut [u64],
    steps: &mut [u32],
    whole: &mut [i32],
    plan: Plan,
) -> Counts
    requires lent { Lent list.now wires (length out.old) (length terms.old) (length steps.old) }
    requires sized { Sized (view plan) list.now whole.old }
    ensures { Shortened (view plan) list.now out.old terms.old steps.old whole.old (Ok result) out.new terms.new steps.new whole.new }
{
    let g = list.len() / GATE_WIDTH;
    rewrite(
        list,
        wires,
        &mut out[..GATE_WIDTH * g],
        &mut terms[..TERM_WIDTH * (GATE_TERMS * g)],
        &mut steps[..STEP_WIDTH * (g + MAX_COLUMNS)],
        &mut whole[..GATE_WIDTH * WHOLE_GATES],
        plan,
    )
}

// Every list, any two caps, any four rooms: refused, and nothing is written; or done.
pub fn cnot_min_plain(
    list: &[i32],
    wires: usize,
    bits: usize,
    qubit_cap: usize,
    term_cap: usize,
    out: &mut [i32],
    terms: &mut [u64],
    steps: &mut [u32],
    whole: &mut [i32],
) -> Result<Counts, Refusal>
    ensures { Plainly list.now wires bits qubit_cap term_cap out.old terms.old steps.old whole.old result out.new terms.new steps.new whole.new }
{
    let plan = plan::of_caps(qubit_cap, term_cap);
    plain_check::check(
        list,
        wires,
        bits,
        plan.qubits,
        out.len(),
        terms.len(),
        steps.len(),
        whole.len(),
    )?;
    Ok(minimize(list, wires, out, terms, steps, whole, plan))
}
