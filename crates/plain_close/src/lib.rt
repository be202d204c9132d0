// The closing map in its plainest form: the rows are taken to the identity by additions, every one of them is noted, and then they are written in reverse
// as CNOTs. Nothing stops it on the way: n rows never take more than n squared additions, and the room has that many.
#![tactic(auto)]

ghost use Rattle.std.specs.Prelude.{◌≡◌, cond, ◌+◌, ◌*◌, ◌≤◌, ◌<◌, length, get_or};
ghost use Rattle.rules.specs.Close as Paper;
ghost use Rattle.rules.specs.Synth as Synth;
ghost use Rattle.rows.specs.Rows.{rows_of, other_has};
ghost use Rattle.closing.specs.Additions.{held, wanted};
ghost use Rattle.closing.specs.Emission.{Sent, backwards, reversed, Sendable, Rooms};
ghost use Rattle.writing.specs.Written.{Wrote, Fits};
ghost use Rattle.plain_close.specs.Map.{Column, Next, Filled, Ends, Closes};

use parity::Parity;

// Where the diagonal bit of a column is 0, the first lower row that has it is added. How many additions are noted then; none where no row
// has it.
// Stays: beside closing's, which has a limit that stops it; the search and the noted addition are shared.
fn diagonal(m: &mut [Parity], steps: &mut [u32], k: usize, column: usize) -> Option<usize>
    requires { Column m.old steps.old k 1 column }
    ensures { Filled (Paper.diagonal (length (rows_of m.old)) column (held m.old steps.old k)) k m.new steps.new result }
{
    if m[column].has(column as u32) {
        return Some(k);
    }
    let donor = rows::find(&*m, column as u32, column + 1)?;
    closing::add_noted(m, steps, k, donor, column);
    Some(k + 1)
}

// The column's own row is added to row r, if that is another row and has the bit.
fn clear_row(m: &mut [Parity], steps: &mut [u32], k: usize, column: usize, r: usize) -> usize
    requires column { Column m.old steps.old k 1 column }
    requires r_in_bounds { r < length (rows_of m.old) }
    ensures { Next (cond (other_has column r (get_or (rows_of m.old) r 0)) (Paper.note column r (held m.old steps.old k)) (held m.old steps.old k)) k m.new steps.new result }
{
    if rows::other(m[r], column as u32, r) {
        closing::add_noted(m, steps, k, column, r);
        k + 1
    } else {
        k
    }
}

// The same for every row.
fn clear_column(m: &mut [Parity], steps: &mut [u32], k: usize, column: usize) -> usize
    requires { Column m.old steps.old k (length (rows_of m.old)) column }
    ensures { (held m.new steps.new result ≡ Paper.clear column (length (rows_of m.old)) 0 (held m.old steps.old k)) × (result ≤ k + length (rows_of m.old)) }
{
    let n = m.len();
    let mut noted = k;
    for r in 0..n {
        noted = clear_row(&mut *m, &mut *steps, noted, column, r);
    }
    noted
}

// Takes the rows of `m` to the identity, column by column, and notes the additions. How many they are; none where there is no end.
// Stays: beside closing's, which stops at a limit and stores in every turn; here a row is asked first, and nothing stops it.
fn reduce(m: &mut [Parity], steps: &mut [u32]) -> Option<usize>
    requires { (length (rows_of m.old) ≤ 128) × (2 * (length (rows_of m.old) * length (rows_of m.old) + 1) ≤ length steps.old) }
    ensures { Ends (length (rows_of m.old)) (wanted (rows_of m.old)) steps.new result }
{
    let n = m.len();
    let mut k = 0;
    for column in 0..n {
        let filled = diagonal(&mut *m, &mut *steps, k, column)?;
        k = clear_column(&mut *m, &mut *steps, filled, column);
    }
    Some(k)
}

// The first n additions of the room as CNOTs, from the added row to the changed one, the last addition first.
// Stays: beside closing's, since a written gate is counted against no ceiling; over one sink this would have an error that never comes.
fn write_steps(names: &[u32], steps: &[u32], n: usize, whole: &mut [i32], k: usize) -> usize
    requires sent { Sent names.now steps.now n }
    requires fits { Fits whole.old k n }
    ensures { Wrote (Synth.emit names.now (backwards steps.now n)) whole.old k whole.new result }
{
    let mut to = k;
    for i in (0..n).rev() {
        let (control, target) = closing::wires_of(names, steps, i);
        to = writing::write_cnot(&mut *whole, to, control, target);
    }
    to
}

// The rows of `m` taken to the identity, and the additions written in reverse. How many gates stand there then; none where there is no map.
fn send(
    m: &mut [Parity],
    names: &[u32],
    steps: &mut [u32],
    whole: &mut [i32],
    k: usize,
) -> Option<usize>
    requires sendable { Sendable m.old names.now steps.old (length (rows_of m.old) * length (rows_of m.old)) }
    requires fits { Fits whole.old k (length (rows_of m.old) * length (rows_of m.old)) }
    ensures { Closes (reversed (rows_of m.old)) names.now whole.old k whole.new result }
{
    let n = reduce(m, &mut *steps)?;
    Some(write_steps(names, &*steps, n, whole, k))
}

// Writes the CNOTs that take the rows `held` to the rows `wanted`: the wanted rows times the inverse of those held, and its additions.
pub fn linear_synth(
    held: &mut [Parity],
    wanted: &[Parity],
    right: &mut [Parity],
    names: &[u32],
    steps: &mut [u32],
    whole: &mut [i32],
    k: usize,
) -> Option<usize>
    requires rooms { Rooms held.old wanted.now right.old names.now steps.old (length (rows_of wanted.now) * length (rows_of wanted.now)) }
    requires fits { Fits whole.old k (length (rows_of wanted.now) * length (rows_of wanted.now)) }
    ensures { Closes (Paper.closing (rows_of held.old) (rows_of wanted.now)) names.now whole.old k whole.new result }
{
    if rows::equal(&*held, wanted) {
        return Some(k);
    }
    if !closing::needed(&mut *held, wanted, right) {
        return None;
    }
    send(held, names, steps, whole, k)
}
