// Parts of the engine under names that a program in another language can call, so that they can be timed beside the original. What such a program has
// of a matrix is its words, two to a row, so a matrix is copied in and out; next to the work that is little time.
#![tactic(auto)]

ghost use Rattle.std.specs.Prelude.{◌≡◌, ◌+◌, ◌*◌, ◌/◌, ◌^◌, ◌≤◌, ◌<◌, length};
ghost use Rattle.rules.specs.Close.{inverse};
ghost use Rattle.budget.specs.View.{view, nothing_counted, counts_after, made};
ghost use Rattle.emit.specs.Emitted.{Ready};
ghost use Rattle.rows.specs.Rows.{rows_of, given};
ghost use Rattle.terms.specs.Terms.{terms_of};
ghost use Rattle.column.specs.Choice.{Best};
ghost use Rattle.walk.specs.Place.{Wires, Synthesized};
ghost use Rattle.timing.specs.Doors.{rows_in, whole, Walks};

use budget::{Budget, Spent};
use parity::Parity;
use rules::MAX_COLUMNS;
use walk::Slot;

// Nodes of a stack that is enough for every walk.
const NODES: usize = MAX_COLUMNS + 1;

// The rows of a room of words.
#[tactic(auto, using(crate::proofs::Words::words_count))]
fn load(room: &[u64], rows: &mut [Parity])
    requires { length rows.old ≡ length room.now / 2 }
    ensures { rows_of rows.new ≡ rows_in room.now }
{
    for (r, row) in rows.iter_mut().enumerate() {
        *row = Parity {
            lo: room[2 * r],
            hi: room[2 * r + 1],
        };
    }
}

// Rows into a room of words.
#[tactic(auto, using(crate::proofs::Words::words_count))]
fn store(rows: &[Parity], room: &mut [u64])
    requires { length rows.now ≡ length room.old / 2 }
    ensures { rows_in room.new ≡ rows_of rows.now }
{
    for (r, row) in rows.iter().enumerate() {
        room[2 * r] = row.lo;
        room[2 * r + 1] = row.hi;
    }
}

// `rows::invert_into` over the rows of two rooms of words.
#[tactic(auto, using(crate::proofs::Words::words_count))]
fn inverted(a: &mut [u64], inv: &mut [u64], left: &mut [Parity], right: &mut [Parity]) -> bool
    requires few { (length (rows_in a.old) ≤ 128) × (length inv.old ≡ length a.old) }
    requires many { (length left.old ≡ length a.old / 2) × (length right.old ≡ length a.old / 2) }
    ensures { given result (rows_in inv.new) ≡ inverse (rows_in a.old) }
{
    load(&*a, &mut *left);
    let inverted = rows::invert_into(&mut *left, &mut *right);
    store(&*left, a);
    store(&*right, inv);
    inverted
}

// `rows::invert_into`.
#[tactic(auto, using(crate::proofs::Words::words_count))]
#[unsafe(no_mangle)]
pub extern "C" fn timing_invert(a: &mut [u64], inv: &mut [u64]) -> bool
    requires { (length (rows_in a.old) ≤ 128) × (length inv.old ≡ length a.old) }
    ensures { given result (rows_in inv.new) ≡ inverse (rows_in a.old) }
{
    let n = a.len() / 2;
    let mut left = [Parity::zero(); MAX_COLUMNS];
    let mut right = [Parity::zero(); MAX_COLUMNS];
    inverted(a, inv, &mut left[..n], &mut right[..n])
}

// `column::best_column`, with the candidates by their two words.
#[unsafe(no_mangle)]
pub extern "C" fn timing_column(set: &[u64], lo: u64, hi: u64) -> u32
    requires { 0 < length (terms_of set.now) }
    ensures { Best (terms_of set.now) (hi * 2 ^ 64 + lo) result }
{
    column::best_column(set, Parity { lo, hi })
}

// `walk::gray_synth` over the rows of a room of words.
#[tactic(auto, using(crate::proofs::Words::words_count))]
fn walked(
    room: &mut [u64],
    nodes: &mut [Slot],
    held: &mut [u64],
    rows: &mut [Parity],
    names: &[u32],
    out: &mut [i32],
    b: Budget,
) -> Result<Budget, Spent>
    requires wires { Wires names.now × (length names.now + 1 ≤ length nodes.old) }
    requires rows { (length (rows_in held.old) ≡ length names.now) × (length rows.old ≡ length names.now) }
    requires ready { Ready out.old (view b) }
    ensures { Synthesized names.now (whole (length names.now) (terms_of room.old)) out.old (view b) (rows_in held.old) out.new (counts_after result) (rows_in held.new) (made result) }
{
    load(&*held, &mut *rows);
    let walked = walk::gray_synth(room, names.len() as u32, nodes, &mut *rows, names, out, b);
    store(&*rows, held);
    walked
}

// `walk::gray_synth` on a budget of its own: the gates made, or the largest number where the budget was spent. Its stack is of its own, so the room
// for nodes stays as it is.
#[tactic(auto, using(crate::proofs::Words::words_count))]
#[unsafe(no_mangle)]
pub extern "C" fn timing_walk(
    room: &mut [u64],
    _nodes: &mut [u64],
    held: &mut [u64],
    names: &[u32],
    out: &mut [i32],
    two: usize,
    all: usize,
) -> usize
    requires wires { Wires names.now }
    requires rows { length (rows_in held.old) ≡ length names.now }
    requires ready { Ready out.old (nothing_counted two all) }
    ensures { Walks two all names.now (terms_of room.old) (rows_in held.old) (rows_in held.new) out.old out.new result }
{
    let n = names.len();
    let mut nodes = [Slot::first(Parity::zero()); NODES];
    let mut rows = [Parity::zero(); MAX_COLUMNS];
    let b = Budget::new(two, all);
    match walked(room, &mut nodes, held, &mut rows[..n], names, out, b) {
        Ok(spent) => spent.all,
        Err(_) => usize::MAX,
    }
}
