// The resynthesis of a block: phase walk, closing map, flips.
#![tactic(auto)]

ghost use Rattle.std.specs.Prelude.{◌≡◌, ℕ, ◌≤◌, ◌<◌, ◌^◌, length, get_or};
ghost use Rattle.rules.specs.Walk.{phase_walk};
ghost use Rattle.rules.specs.Close.{units};
ghost use Rattle.parity.specs.View.{val};
ghost use Rattle.budget.specs.View.{view, counts_after, made};
ghost use Rattle.emit.specs.Emitted.{Ready, Emits};
ghost use Rattle.rows.specs.Rows.{rows_of};
ghost use Rattle.walk.specs.Place.{Synthesized};
ghost use Rattle.block.specs.View.{names_of, terms_at, block_at};
ghost use Rattle.synth.specs.Flips.{flip_if, flips_from};
ghost use Rattle.synth.specs.Resynthesis.{Walkable, Rooms, Synthesizes};

use block::Block;
use budget::{Budget, Spent};
use join::{Local, Wire};
use parity::Parity;
use rules::TERM_WIDTH;
use walk::Slot;

// An x, if the constant is true.
fn emit_flip(on: bool, q: Wire, out: &mut [i32], b: Budget) -> Result<Budget, Spent>
    requires ready { Ready out.old (view b) }
    requires q_bound { q.0 < 2 ^ 31 }
    ensures { Emits (flip_if on q.0) out.old (view b) out.new (counts_after result) (made result) }
{
    if on { emit::emit_x(out, b, q) } else { Ok(b) }
}

// An x on each of the first n local indices whose constant is true, ascending.
fn emit_flips(
    flips: Parity,
    n: u32,
    names: &[u32],
    out: &mut [i32],
    b: Budget,
) -> Result<Budget, Spent>
    requires ready { Ready out.old (view b) }
    requires n_bound { (n ≤ 128) × ((n ≤ length names.now) × ((i : ℕ) → i < length names.now → get_or names.now i 0 < 2 ^ 31)) }
    ensures { Emits (flips_from names.now (val flips) n 0) out.old (view b) out.new (counts_after result) (made result) }
{
    let mut spent = b;
    for i in 0..n {
        let on = flips.has(i);
        let q = join::wire_of(names, Local(i));
        spent = emit_flip(on, q, &mut *out, spent)?;
    }
    Ok(spent)
}

// The phase walk of the block's terms other than 0, from the unit rows.
fn emit_walk(
    block: &Block,
    room: &mut [u64],
    nodes: &mut [Slot],
    held: &mut [Parity],
    out: &mut [i32],
    b: Budget,
) -> Result<Budget, Spent>
    requires walkable { Walkable block.now room.old nodes.old held.old }
    requires ready { Ready out.old (view b) }
    ensures { Synthesized (names_of block.now) (phase_walk block.now.wires (terms_at block.now room.old)) out.old (view b) (units block.now.wires 0) out.new (counts_after result) (rows_of held.new) (made result) }
{
    let count = block.terms;
    let entering = terms::compact(&mut *room, count);
    let end = TERM_WIDTH * entering;
    rows::set_units(&mut *held);
    let names = &block.names[..block.wires as usize];
    walk::gray_synth(&mut room[..end], block.wires, nodes, held, names, out, b)
}

// The block written again: the phase walk, the closing map to the block's own rows, the flips. Each stops at once when the budget is spent.
pub fn synthesize(
    block: &Block,
    room: &mut [u64],
    nodes: &mut [Slot],
    held: &mut [Parity],
    right: &mut [Parity],
    steps: &mut [u32],
    out: &mut [i32],
    b: Budget,
) -> Result<Budget, Spent>
    requires rooms { Rooms block.now room.old nodes.old held.old right.old steps.old b.maxall }
    requires ready { Ready out.old (view b) }
    ensures { Synthesizes (block_at block.now room.old) out.old (view b) out.new (counts_after result) (made result) }
{
    let n = block.wires as usize;
    let names = &block.names[..n];
    let walked = emit_walk(block, room, nodes, &mut *held, &mut *out, b)?;
    let closed = closing::linear_synth(
        held,
        &block.rows[..n],
        right,
        names,
        steps,
        &mut *out,
        walked,
    )?;
    emit_flips(block.flips, block.wires, names, out, closed)
}
