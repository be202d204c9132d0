// A closed block: written again at its own place in the output, and kept there if that is cheaper; else the place gets the block's own gates.
#![tactic(auto)]

ghost use Rattle.std.specs.Prelude.{◌≡◌, true, ◌*◌, ◌≤◌, length};
ghost use Rattle.rules.specs.Limits.{width};
ghost use Rattle.rules.specs.Numbers.{gates_of};
ghost use Rattle.rules.specs.Scan.{Writer};
ghost use Rattle.rules.specs.Lines.{lined};
ghost use Rattle.rules.specs.Pass.{writer_of};
ghost use Rattle.budget.specs.View as Counted;
ghost use Rattle.budget.specs.View.{counts_after, made};
ghost use Rattle.plan.specs.View.{view};
ghost use Rattle.flush.specs.Choice.{keeps, Writes, Exact, Settles, Fitted, Flushable, Lent, Flushes};

use block::Block;
use budget::{Budget, Spent};
use parity::Parity;
use plan::Plan;
use rules::{GATE_WIDTH, MAX_COLUMNS, STEP_WIDTH, TERM_WIDTH};
use walk::Slot;

// Nodes of a stack that is enough for every block.
pub const STACK: usize = MAX_COLUMNS + 1;

// How many gates the place now has, and whether they are new.
#[derive(Clone, Copy, Debug, PartialEq, Eq)]
pub struct Flushed {
    pub gates: usize,
    pub replaced: bool,
}

// The total isn't higher, and the pair of counts is smaller, CNOT and CZ first.
pub fn cheaper(b: Budget) -> bool
    ensures { result ≡ keeps (Counted.view b) }
{
    (b.all <= b.maxall) & ((b.two < b.maxtwo) | ((b.two == b.maxtwo) & (b.all < b.maxall)))
}

// The run at the place.
// Stays: `copy_from_slice` calls C's `memmove`, which the library would then need from the program that links it.
pub fn copy(run: &[i32], place: &mut [i32])
    requires { length place.old ≡ length run.now }
    ensures { place.new ≡ run.now }
{
    for i in 0..run.len() {
        place[i] = run[i];
    }
}

// Keeps what was written at the place, or copies the run there: the choice, whatever the writer is.
fn settle(run: &[i32], place: &mut [i32], p: Result<Budget, Spent>) -> Flushed
    requires { length place.old ≡ length run.now }
    ensures { (write : Writer) → Exact run.now → Writes write (gates_of run.now) place.old p → Settles write run.now place.new result }
{
    match p {
        Ok(b) if cheaper(b) => Flushed {
            gates: b.all,
            replaced: true,
        },
        _ => {
            copy(run, place);
            Flushed {
                gates: run.len() / GATE_WIDTH,
                replaced: false,
            }
        }
    }
}

// Gates that were written at the place get the line of the run's first gate, whatever the writer is.
fn mark(run: &[i32], place: &mut [i32], p: Result<Budget, Spent>)
    requires { made p ≡ true → width * (counts_after p).all ≤ length place.old }
    ensures { (write : Writer) → Writes write (gates_of run.now) place.old p → Writes (lined write) (gates_of run.now) place.new p }
{
    if let Ok(b) = p {
        gate::stamp(place, b.all, gate::line(run));
    }
}

// The block written again at its place, within the run's own counts, by the plan's writer: the resynthesis, whatever the plan, with its line. No other function knows.
fn attempt(
    run: &[i32],
    place: &mut [i32],
    block: &Block,
    room: &mut [u64],
    nodes: &mut [Slot],
    held: &mut [Parity],
    right: &mut [Parity],
    steps: &mut [u32],
    plan: Plan,
) -> Result<Budget, Spent>
    requires { Fitted run.now place.old block.now room.old nodes.old held.old right.old steps.old }
    ensures { Writes (writer_of (view plan)) (gates_of run.now) place.new result }
{
    let b = Budget::new(gate::count_two(run), run.len() / GATE_WIDTH);
    let p = synth::synthesize(block, room, nodes, held, right, steps, &mut *place, b);
    mark(run, place, p);
    p
}

// A closed block: `run` is its gates, `place` its own place in the output, as long as the run. Its wires leave the join table. Of each work room only
// the part that the block needs is lent on.
// Stays: the rooms are parameters of their own, tried as fields of one lent struct: no proof is made of a function that lends parts of two of them on.
pub fn flush(
    run: &[i32],
    place: &mut [i32],
    block: &Block,
    table: &mut [u32],
    room: &mut [u64],
    nodes: &mut [Slot],
    held: &mut [Parity],
    right: &mut [Parity],
    steps: &mut [u32],
    plan: Plan,
) -> Flushed
    requires flushable { Flushable run.now block.now table.old room.old }
    requires lent { Lent run.now place.old nodes.old held.old right.old steps.old }
    ensures { Flushes (writer_of (view plan)) run.now place.new block.now table.new result }
{
    let wires = block.wires;
    let n = wires as usize;
    let stack = n + 1;
    let terms = TERM_WIDTH * block.terms;
    let most = STEP_WIDTH * (run.len() / GATE_WIDTH + 1);
    let p = attempt(
        run,
        &mut *place,
        block,
        &mut room[..terms],
        &mut nodes[..stack],
        &mut held[..n],
        &mut right[..n],
        &mut steps[..most],
        plan,
    );
    let r = settle(run, place, p);
    join::leave(table, &block.names, wires);
    r
}
