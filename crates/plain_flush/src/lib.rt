// A closed block of the plain engine: its resynthesis is written to its end in a room of its own; only then are the counts of the two whole writings
// compared, and the cheaper one is copied to the block's place.
// Stays: beside `flush` with functions of its own, since its writing is whole before it is compared; the test of the counts is shared.
#![tactic(auto)]

ghost use Rattle.std.specs.Prelude.{◌≡◌, false, ◌*◌, ◌≤◌, length};
ghost use Rattle.rules.specs.Limits.{width};
ghost use Rattle.rules.specs.Numbers.{gates_of};
ghost use Rattle.rules.specs.Counts.{twos, cheaper};
ghost use Rattle.rules.specs.Scan.{Writer};
ghost use Rattle.rules.specs.Pass.{writer_of};
ghost use Rattle.plan.specs.View.{view};
ghost use Rattle.writing.specs.Written.{Stands};
ghost use Rattle.flush.specs.Choice.{Exact, Flushable};
ghost use Rattle.plain_flush.specs.Keeping.{Keeps, Fitted, Lent, Flushes};

use block::Block;
use budget::Budget;
use flush::Flushed;
use parity::Parity;
use plan::Plan;
use rules::{GATE_WIDTH, TERM_WIDTH};
use walk::Slot;

// What the place then has, and how many CNOT and CZ the new writing has, kept or not.
#[derive(Clone, Copy, Debug, PartialEq, Eq)]
pub struct Kept {
    pub flushed: Flushed,
    pub twos: usize,
}

// The run at the place, since its new writing, of `new` CNOT and CZ, is not cheaper.
fn stay(run: &[i32], place: &mut [i32], new: usize) -> Kept
    requires { length place.old ≡ length run.now }
    ensures { (write : Writer) → Exact run.now → cheaper (write (gates_of run.now)) (gates_of run.now) ≡ false → new ≡ twos (write (gates_of run.now)) → Keeps write run.now place.new result }
{
    flush::copy(run, place);
    Kept {
        flushed: Flushed {
            gates: run.len() / GATE_WIDTH,
            replaced: false,
        },
        twos: new,
    }
}

// The first k gates of `whole` are the new writing: they are copied to the place if they are cheaper than the run, else the run is.
fn keep(run: &[i32], place: &mut [i32], whole: &[i32], k: usize) -> Kept
    requires { (length place.old ≡ length run.now) × (width * k ≤ length whole.now) }
    ensures { (write : Writer) → Exact run.now → Stands whole.now k (write (gates_of run.now)) → Keeps write run.now place.new result }
{
    let end = GATE_WIDTH * k;
    let new = gate::count_two(&whole[..end]);
    let counts = Budget {
        two: new,
        all: k,
        maxtwo: gate::count_two(run),
        maxall: run.len() / GATE_WIDTH,
    };
    if flush::cheaper(counts) {
        flush::copy(&whole[..end], &mut place[..end]);
        Kept {
            flushed: Flushed {
                gates: k,
                replaced: true,
            },
            twos: new,
        }
    } else {
        stay(run, place, new)
    }
}

// The block written again in `whole`, to its end, with the line of the run's first gate; then the choice. Where it has no resynthesis, the run stays.
fn settle(
    run: &[i32],
    place: &mut [i32],
    block: &Block,
    room: &mut [u64],
    nodes: &mut [Slot],
    held: &mut [Parity],
    right: &mut [Parity],
    steps: &mut [u32],
    whole: &mut [i32],
    plan: Plan,
) -> Kept
    requires fitted { Fitted run.now place.old block.now room.old nodes.old held.old right.old steps.old whole.old }
    requires exact { Exact run.now }
    ensures { Keeps (writer_of (view plan)) run.now place.new result }
{
    let Some(k) = plain_synth::resynthesize(block, room, nodes, held, right, steps, &mut *whole)
    else {
        return stay(run, place, gate::count_two(run));
    };
    gate::stamp(&mut *whole, k, gate::line(run));
    keep(run, place, &*whole, k)
}

// A closed block: `run` is its gates, `place` its own place in the output, as long as the run. Its wires leave the join table. Of each work room only
// the part that the block needs is lent on.
pub fn flush(
    run: &[i32],
    place: &mut [i32],
    block: &Block,
    table: &mut [u32],
    room: &mut [u64],
    nodes: &mut [Slot],
    held: &mut [Parity],
    right: &mut [Parity],
    steps: &mut [u32],
    whole: &mut [i32],
    plan: Plan,
) -> Kept
    requires flushable { Flushable run.now block.now table.old room.old }
    requires lent { Lent run.now place.old block.now nodes.old held.old right.old steps.old whole.old }
    ensures { Flushes (writer_of (view plan)) run.now place.new block.now table.new result }
{
    let wires = block.wires;
    let n = wires as usize;
    let stack = n + 1;
    let terms = TERM_WIDTH * block.terms;
    let r = settle(
        run,
        place,
        block,
        &mut room[..terms],
        &mut nodes[..stack],
        &mut held[..n],
        &mut right[..n],
        steps,
        whole,
        plan,
    );
    join::leave(table, &block.names, wires);
    r
}
