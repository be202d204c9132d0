// The closing map: rows taken to the identity by additions, which are written into a lent room, and emitted in reverse as CNOTs.
#![tactic(auto)]

ghost use Rattle.std.specs.Prelude.{◌≡◌, ◌+◌, ◌*◌, ◌≤◌, ◌<◌, min, length};
ghost use Rattle.rules.specs.Close as Paper;
ghost use Rattle.rules.specs.Synth as Synth;
ghost use Rattle.budget.specs.View.{view, counts_after, made};
ghost use Rattle.emit.specs.Emitted.{Ready, Emits};
ghost use Rattle.rows.specs.Rows.{rows_of, given};
ghost use Rattle.closing.specs.Additions.{Noted, Added, Given, Reduced};
ghost use Rattle.closing.specs.Emission.{left_of, IsNamed, added_wire, changed_wire, Sent, backwards, Matrices, needed_rows, reversed, Sendable, Sends, Rooms, Closes};

use budget::{Budget, Spent};
use join::{Local, Wire};
use parity::Parity;

// Writes as entry k that row `from` was added to row `to`.
// Stays: an entry is two numbers of a room of numbers, since C lends it.
pub fn note(steps: &mut [u32], k: usize, from: usize, to: usize)
    requires { (2 * k + 1 < length steps.old) × ((from < 128) × (to < 128)) }
    ensures { Noted k from to steps.old steps.new }
{
    let at = 2 * k;
    steps[at] = from as u32;
    steps[at + 1] = to as u32;
}

// Row `from` is added to row `to`, and that is written as entry k.
pub fn add_noted(m: &mut [Parity], steps: &mut [u32], k: usize, from: usize, to: usize)
    requires { (2 * k + 1 < length steps.old) × (length (rows_of m.old) ≤ 128) × (from < length (rows_of m.old)) × (to < length (rows_of m.old)) }
    ensures { Added k from to m.old steps.old m.new steps.new }
{
    rows::add(m, from, to);
    note(steps, k, from, to);
}

// Where the diagonal bit of a column is 0, the first lower row that has it is added. How many additions there are then; none where no row
// has it, or they would pass the limit.
fn diagonal(
    m: &mut [Parity],
    steps: &mut [u32],
    k: usize,
    limit: usize,
    column: usize,
) -> Option<usize>
    requires { (column < length (rows_of m.old)) × ((length (rows_of m.old) ≤ 128) × ((k ≤ limit) × (2 * (limit + 1) ≤ length steps.old))) }
    ensures { Given limit k column result m.old m.new steps.old steps.new }
{
    if m[column].has(column as u32) {
        return Some(k);
    }
    let donor = rows::find(&*m, column as u32, column + 1)?;
    if k >= limit {
        return None;
    }
    add_noted(m, steps, k, donor, column);
    Some(k + 1)
}

// Takes the rows of `m` to the identity, column by column, and writes the additions. How many they are; none where there is no end, or they
// pass the limit.
pub fn reduce(m: &mut [Parity], steps: &mut [u32], limit: usize) -> Option<usize>
    requires { (length (rows_of m.old) ≤ 128) × (2 * (limit + 1) ≤ length steps.old) }
    ensures { Reduced limit result (rows_of m.old) steps.old steps.new }
{
    let n = m.len();
    let mut k = 0;
    'columns: {
        for column in 0..n {
            k = diagonal(&mut *m, &mut *steps, k, limit, column)?;
            // no branch on the bit: every turn stores, and only the count moves by it
            let pivot = m[column];
            for r in 0..n {
                let bit = rows::other(m[r], column as u32, r);
                rows::add_kept(&mut *m, r, pivot, bit);
                note(&mut *steps, k, column, r);
                k += bit as usize;
                if k > limit {
                    break 'columns None;
                }
            }
        }
        Some(k)
    }
}

// How many gates the budget has left.
fn left_of(b: Budget) -> usize
    requires { (b.two ≤ b.maxtwo) × (b.all ≤ b.maxall) }
    ensures { result ≡ left_of (view b) }
{
    let two = b.maxtwo - b.two;
    let all = b.maxall - b.all;
    two.min(all)
}

// The most additions that are of use for n rows: n squared is enough for any map.
fn limit_of(left: usize, n: usize) -> usize
    requires { n ≤ 128 }
    ensures { result ≡ min left (n * n) }
{
    left.min(n * n)
}

// The wires of entry i: the added row's, and the changed one's.
pub fn wires_of(names: &[u32], steps: &[u32], i: usize) -> (Wire, Wire)
    requires { IsNamed names.now steps.now i }
    ensures { (result.0.0 ≡ added_wire names.now steps.now i) × (result.1.0 ≡ changed_wire names.now steps.now i) }
{
    let at = 2 * i;
    let control = join::wire_of(names, Local(steps[at]));
    let target = join::wire_of(names, Local(steps[at + 1]));
    (control, target)
}

// The first k additions of the room as CNOTs, from the added row to the changed one, the last addition first.
fn emit_steps(
    names: &[u32],
    steps: &[u32],
    k: usize,
    out: &mut [i32],
    b: Budget,
) -> Result<Budget, Spent>
    requires ready { Ready out.old (view b) }
    requires sent { Sent names.now steps.now k }
    ensures { Emits (Synth.emit names.now (backwards steps.now k)) out.old (view b) out.new (counts_after result) (made result) }
{
    let mut spent = b;
    for i in (0..k).rev() {
        let (control, target) = wires_of(names, steps, i);
        spent = emit::emit_cnot(&mut *out, spent, control, target)?;
    }
    Ok(spent)
}

// The map still needed, the wanted rows times the inverse of those held, in their place; false where they have none.
// Stays: a bool, the answer of a test; the map stands in the room, so an Option would hold nothing.
pub fn needed(held: &mut [Parity], wanted: &[Parity], right: &mut [Parity]) -> bool
    requires { Matrices held.old wanted.now right.old }
    ensures { given result (rows_of held.new) ≡ needed_rows (Paper.inverse (rows_of held.old)) (rows_of wanted.now) }
{
    if !rows::invert_into(&mut *held, &mut *right) {
        return false;
    }
    rows::products(wanted, &*right, held);
    true
}

// The rows of `m` taken to the identity, and the additions emitted in reverse.
fn send(
    m: &mut [Parity],
    names: &[u32],
    steps: &mut [u32],
    out: &mut [i32],
    b: Budget,
) -> Result<Budget, Spent>
    requires ready { Ready out.old (view b) }
    requires sendable { Sendable m.old names.now steps.old b.maxall }
    ensures { Sends (reversed (rows_of m.old)) names.now out.old (view b) out.new (counts_after result) (made result) }
{
    let limit = limit_of(left_of(b), m.len());
    let Some(k) = reduce(m, &mut *steps, limit) else {
        return Err(Spent(b));
    };
    emit_steps(names, &*steps, k, out, b)
}

// Emits the CNOTs that take the rows `held` to the rows `wanted`.
pub fn linear_synth(
    held: &mut [Parity],
    wanted: &[Parity],
    right: &mut [Parity],
    names: &[u32],
    steps: &mut [u32],
    out: &mut [i32],
    b: Budget,
) -> Result<Budget, Spent>
    requires ready { Ready out.old (view b) }
    requires rooms { Rooms held.old wanted.now right.old names.now steps.old b.maxall }
    ensures { Closes (rows_of held.old) (rows_of wanted.now) names.now out.old (view b) out.new (counts_after result) (made result) }
{
    if rows::equal(&*held, wanted) {
        return Ok(b);
    }
    if !needed(&mut *held, wanted, right) {
        return Err(Spent(b));
    }
    send(held, names, steps, out, b)
}
