// A block's resynthesis written to its end at the beginning of a room: phase walk, closing map, flips. Nothing is compared on the way.
// Stays: beside `synth` with functions of its own, since nothing here counts or stops; over one sink each would have an error that never comes.
#![tactic(auto)]

ghost use Rattle.std.specs.Prelude.{◌≡◌, ◌≤◌, ◌<◌, ◌^◌, length};
ghost use Rattle.rules.specs.Walk.{phase_walk};
ghost use Rattle.rules.specs.Close.{units};
ghost use Rattle.rules.specs.Synth.{synth};
ghost use Rattle.parity.specs.View.{val};
ghost use Rattle.rows.specs.Rows.{rows_of};
ghost use Rattle.closing.specs.Emission.{Wired};
ghost use Rattle.block.specs.View.{names_of, terms_at, block_at};
ghost use Rattle.writing.specs.Written.{Wrote, Fits};
ghost use Rattle.plain_walk.specs.Place.{Walks};
ghost use Rattle.synth.specs.Flips.{flip_if, flips_from};
ghost use Rattle.synth.specs.Resynthesis.{Walkable};
ghost use Rattle.plain_synth.specs.Whole.{walk_of, Lent, Resynthesizes};

use block::Block;
use join::{Local, Wire};
use parity::Parity;
use walk::Slot;

// An x, if the constant is true.
fn write_flip(on: bool, q: Wire, whole: &mut [i32], k: usize) -> usize
    requires fits { Fits whole.old k 1 }
    requires q_bound { q.0 < 2 ^ 31 }
    ensures { Wrote (flip_if on q.0) whole.old k whole.new result }
{
    if on { writing::write_x(whole, k, q) } else { k }
}

// An x on each of the first n local indices whose constant is true, ascending.
fn write_flips(flips: Parity, n: u32, names: &[u32], whole: &mut [i32], k: usize) -> usize
    requires fits { Fits whole.old k n }
    requires n_bound { (n ≤ 128) × ((n ≤ length names.now) × Wired names.now) }
    ensures { Wrote (flips_from names.now (val flips) n 0) whole.old k whole.new result }
{
    let mut to = k;
    for i in 0..n {
        let on = flips.has(i);
        let q = join::wire_of(names, Local(i));
        to = write_flip(on, q, &mut *whole, to);
    }
    to
}

// The phase walk of the block's terms other than 0, from the unit rows.
fn write_walk(
    block: &Block,
    room: &mut [u64],
    nodes: &mut [Slot],
    held: &mut [Parity],
    whole: &mut [i32],
) -> usize
    requires walkable { Walkable block.now room.old nodes.old held.old }
    requires fits { Fits whole.old 0 (length (walk_of block.now room.old)) }
    ensures { Walks (names_of block.now) (phase_walk block.now.wires (terms_at block.now room.old)) whole.old 0 (units block.now.wires 0) whole.new result (rows_of held.new) }
{
    rows::set_units(&mut *held);
    let names = &block.names[..block.wires as usize];
    plain_walk::phase_walk(room, block.terms, block.wires, nodes, held, names, whole, 0)
}

// The block written again: the phase walk, the closing map to the block's own rows, the flips. How many gates they are; none where there is no closing map.
pub fn resynthesize(
    block: &Block,
    room: &mut [u64],
    nodes: &mut [Slot],
    held: &mut [Parity],
    right: &mut [Parity],
    steps: &mut [u32],
    whole: &mut [i32],
) -> Option<usize>
    requires { Lent block.now room.old nodes.old held.old right.old steps.old whole.old }
    ensures { Resynthesizes (synth (block_at block.now room.old)) whole.new result }
{
    let n = block.wires as usize;
    let names = &block.names[..n];
    let walked = write_walk(block, room, nodes, &mut *held, &mut *whole);
    let closed = plain_close::linear_synth(
        held,
        &block.rows[..n],
        right,
        names,
        steps,
        &mut *whole,
        walked,
    )?;
    Some(write_flips(block.flips, block.wires, names, whole, closed))
}
