// The entry point: a list checked, each of its blocks written again where that is cheaper, the rooms cleared, and eight counts.
#![tactic(auto)]

ghost use Rattle.std.specs.Prelude.{◌≡◌, ◌++◌, ◌-◌, ◌*◌, ◌≤◌, pos, length, take, replicate};
ghost use Rattle.rules.specs.Limits.{width};
ghost use Rattle.rules.specs.Numbers.{gates_of};
ghost use Rattle.rules.specs.Counts.{twos, ts};
ghost use Rattle.rules.specs.Pass.{writer_of};
ghost use Rattle.plan.specs.View.{view};
ghost use Rattle.scan.specs.Scanning.{gates_in};
ghost use Rattle.cnot_min.specs.Minimizing.{Minimizes, Minimized, Lent, Rewritable, Rewrites};

use gate::Refusal;
use plan::Plan;
use rules::{GATE_TERMS, GATE_WIDTH, MAX_COLUMNS, MAX_WIRES, STEP_WIDTH, TERM_WIDTH};
use scan::Tally;

// In document 01's order: gates, CNOT and CZ together, T as the machine spends it, each in and out; blocks closed, blocks replaced.
#[derive(Clone, Copy, Debug, PartialEq, Eq)]
pub struct Counts {
    pub gatesin: usize,
    pub gatesout: usize,
    pub twosin: usize,
    pub twosout: usize,
    pub tin: usize,
    pub tout: usize,
    pub blocks: usize,
    pub replaced: usize,
}

// The counts of a list and of the gates made of it.
pub fn count(list: &[i32], made: &[i32], s: Tally) -> Counts
    ensures { result ≡ record { gatesin = gates_in list.now; gatesout = s.gates; twosin = twos (gates_of list.now); twosout = twos (gates_of made.now); tin = ts (gates_of list.now); tout = ts (gates_of made.now); blocks = s.blocks; replaced = s.replaced } }
{
    Counts {
        gatesin: list.len() / GATE_WIDTH,
        gatesout: s.gates,
        twosin: gate::count_two(list),
        twosout: gate::count_two(made),
        tin: gate::count_t(list),
        tout: gate::count_t(made),
        blocks: s.blocks,
        replaced: s.replaced,
    }
}

// The end of a pass: the counts; and what stands behind the gates that were made is 0, as are both work rooms.
pub fn finish(
    list: &[i32],
    out: &mut [i32],
    terms: &mut [u64],
    steps: &mut [u32],
    s: Tally,
) -> Counts
    requires { width * s.gates ≤ length out.old }
    ensures counts { result ≡ record { gatesin = gates_in list.now; gatesout = s.gates; twosin = twos (gates_of list.now); twosout = twos (gates_of (take (width * s.gates) out.old)); tin = ts (gates_of list.now); tout = ts (gates_of (take (width * s.gates) out.old)); blocks = s.blocks; replaced = s.replaced } }
    ensures out { out.new ≡ take (width * s.gates) out.old ++ replicate (length out.old - width * s.gates) (pos 0) }
    ensures terms { terms.new ≡ replicate (length terms.old) 0 }
    ensures steps { steps.new ≡ replicate (length steps.old) 0 }
{
    let end = GATE_WIDTH * s.gates;
    let counts = count(list, &out[..end], s);
    out[end..].fill(0);
    terms.fill(0);
    steps.fill(0);
    counts
}

// An accepted list, in rooms that are exactly what it needs.
fn rewrite(
    list: &[i32],
    wires: usize,
    out: &mut [i32],
    terms: &mut [u64],
    steps: &mut [u32],
    plan: Plan,
) -> Counts
    requires { Rewritable (view plan) list.now wires out.old terms.old steps.old }
    ensures { Rewrites (writer_of (view plan)) (view plan) list.now result out.new terms.new steps.new }
{
    let mut table = [0u32; MAX_WIRES];
    let s = scan::scan(
        list,
        &mut table[..wires],
        &mut *out,
        &mut *terms,
        &mut *steps,
        plan,
    );
    finish(list, out, terms, steps, s)
}

// An accepted list: the caps are clamped, once; of each room, only the part that is needed is lent on, so nothing beyond it is ever written.
fn minimize(
    list: &[i32],
    wires: usize,
    qcap: usize,
    tcap: usize,
    out: &mut [i32],
    terms: &mut [u64],
    steps: &mut [u32],
) -> Counts
    requires { Lent list.now wires (length out.old) (length terms.old) (length steps.old) }
    ensures { Minimized list.now qcap tcap out.old terms.old steps.old (Ok result) out.new terms.new steps.new }
{
    let g = list.len() / GATE_WIDTH;
    rewrite(
        list,
        wires,
        &mut out[..GATE_WIDTH * g],
        &mut terms[..TERM_WIDTH * (GATE_TERMS * g)],
        &mut steps[..STEP_WIDTH * (g + MAX_COLUMNS)],
        plan::of_caps(qcap, tcap),
    )
}

// Every list, any two caps, any three rooms: refused, and nothing is written; or done.
pub fn cnot_min_with(
    list: &[i32],
    wires: usize,
    bits: usize,
    qubit_cap: usize,
    term_cap: usize,
    out: &mut [i32],
    terms: &mut [u64],
    steps: &mut [u32],
) -> Result<Counts, Refusal>
    ensures { Minimizes list.now wires bits qubit_cap term_cap out.old terms.old steps.old result out.new terms.new steps.new }
{
    gate::check_list(list, wires, bits, out.len(), terms.len(), steps.len())?;
    let counts = minimize(list, wires, qubit_cap, term_cap, out, terms, steps);
    Ok(counts)
}
