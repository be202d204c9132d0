// Bit matrices over lent rooms, a parity to a row.
#![tactic(auto)]

ghost use Rattle.std.specs.Prelude.{◌≡◌, ◌⊎◌, cond, map, ℕ, ◌-◌, ◌^◌, ◌≤◌, ◌<◌, length, get_or, set};
ghost use Rattle.parity.specs.View.{val, picked};
ghost use Rattle.rules.specs.Bit.{xor};
ghost use Rattle.rules.specs.Close.{add_to, first_with, units, times, clear_both, inverse, eq_rows};
ghost use Rattle.rows.specs.Rows.{rows_of, found_of, other_has, pair, given};

use parity::Parity;

// The sum of the rows that `row` selects, from its lowest column up.
pub fn row_times_matrix(row: Parity, m: &[Parity]) -> Parity
    requires { val row < 2 ^ length (rows_of m.now) }
    ensures { val result ≡ times (val row) 0 (rows_of m.now) }
{
    let mut sum = Parity::zero();
    let mut left = row;
    while !left.is_zero() {
        let rest = left.clear_lowest();
        let at = left.lowest() as usize;
        sum = sum ^ m[at];
        left = rest;
    }
    sum
}

// The first row from `from` on that has a column: the search breaks out with it.
pub fn find(m: &[Parity], column: u32, from: usize) -> Option<usize>
    requires { column < 128 }
    ensures { found_of result ≡ first_with column (length (rows_of m.now) - from) from (rows_of m.now) }
{
    'rows: {
        for r in from..m.len() {
            if m[r].has(column) {
                break 'rows Some(r);
            }
        }
        None
    }
}

// A parity is added to row r, or nothing is.
pub fn add_kept(m: &mut [Parity], r: usize, p: Parity, keep: bool)
    requires { r < length (rows_of m.old) }
    ensures { rows_of m.new ≡ set (rows_of m.old) r (xor (get_or (rows_of m.old) r 0) (cond keep (val p) 0)) }
{
    m[r] = m[r] ^ p.kept(keep);
}

// The parity of a table is added to row r where the digit is 1, nothing where it is 0: every call stores, so that a loop has no branch on data.
pub fn add_picked(m: &mut [Parity], r: usize, t: &[Parity; 2], digit: u64)
    requires { (r < length (rows_of m.old)) × (digit ≤ 1) }
    ensures { rows_of m.new ≡ set (rows_of m.old) r (xor (get_or (rows_of m.old) r 0) (picked t.now digit)) }
{
    m[r] = m[r] ^ Parity::pick(t, digit);
}

// Row a is added to row b.
pub fn add(m: &mut [Parity], a: usize, b: usize)
    requires { (a < length (rows_of m.old)) × (b < length (rows_of m.old)) }
    ensures { rows_of m.new ≡ add_to a b (rows_of m.old) }
{
    m[b] = m[b] ^ m[a];
}

// Whether row r, which is x, is another than row `column` and has that column.
pub fn other(x: Parity, column: u32, r: usize) -> bool
    requires { column < 128 }
    ensures { result ≡ other_has column r (val x) }
{
    (r != column as usize) & x.has(column)
}

// Row `column` is added to those of the rows from `from` up to `to` that have the column, and `inv` follows. The row itself is none of
// them: a test for it inside the loop would be one on data too. The two pivot rows stay as they are, so they are read once.
fn clear_rows(a: &mut [Parity], inv: &mut [Parity], column: u32, from: usize, to: usize)
    requires column_bound { (column < 128) × ((column < length (rows_of a.old)) × (length inv.old ≡ length a.old)) }
    requires from_le_to { (from ≤ to) × ((to ≤ length (rows_of a.old)) × ((column < from) ⊎ (to ≤ column))) }
    ensures { pair (rows_of a.new) (rows_of inv.new) ≡ clear_both column (to - from) from (pair (rows_of a.old) (rows_of inv.old)) }
{
    let pivot = a[column as usize].table();
    let follow = inv[column as usize].table();
    for r in from..to {
        let digit = a[r].digit(column);
        add_picked(&mut *a, r, &pivot, digit);
        add_picked(&mut *inv, r, &follow, digit);
    }
}

// Row `column` is added to every other row that has the column, and `inv` follows.
pub fn clear_column(a: &mut [Parity], inv: &mut [Parity], column: u32)
    requires { (column < 128) × ((column < length (rows_of a.old)) × (length inv.old ≡ length a.old)) }
    ensures { pair (rows_of a.new) (rows_of inv.new) ≡ clear_both column (length (rows_of a.old)) 0 (pair (rows_of a.old) (rows_of inv.old)) }
{
    let n = a.len();
    let row = column as usize;
    clear_rows(&mut *a, &mut *inv, column, 0, row);
    clear_rows(&mut *a, &mut *inv, column, row + 1, n);
}

// The identity.
pub fn set_units(m: &mut [Parity])
    requires { length (rows_of m.old) ≤ 128 }
    ensures { rows_of m.new ≡ units (length (rows_of m.old)) 0 }
{
    for (r, row) in m.iter_mut().enumerate() {
        *row = Parity::single(r as u32);
    }
}

// The inverse of `a` into `inv`, by pivots and exchanges of rows; false where a column has no pivot. `a` is used up.
// Stays: a bool, since the inverse stands in a lent room and an Option would have nothing to hold.
pub fn invert_into(a: &mut [Parity], inv: &mut [Parity]) -> bool
    requires { (length (rows_of a.old) ≤ 128) × (length inv.old ≡ length a.old) }
    ensures { given result (rows_of inv.new) ≡ inverse (rows_of a.old) }
{
    set_units(&mut *inv);
    let n = a.len();
    for column in 0..n {
        let Some(pivot) = find(&*a, column as u32, column) else {
            return false;
        };
        a.swap(column, pivot);
        inv.swap(column, pivot);
        clear_column(&mut *a, &mut *inv, column as u32);
    }
    true
}

// Each wanted row times `inv`, into `m`.
pub fn products(wanted: &[Parity], inv: &[Parity], m: &mut [Parity])
    requires { (length m.old ≡ length wanted.now) × ((i : ℕ) → i < length (rows_of wanted.now) → get_or (rows_of wanted.now) i 0 < 2 ^ length (rows_of inv.now)) }
    ensures { rows_of m.new ≡ map (λ v. times v 0 (rows_of inv.now)) (rows_of wanted.now) }
{
    for (r, row) in wanted.iter().enumerate() {
        m[r] = row_times_matrix(*row, inv);
    }
}

pub fn equal(a: &[Parity], b: &[Parity]) -> bool
    requires { length b.now ≡ length a.now }
    ensures { result ≡ eq_rows (rows_of a.now) (rows_of b.now) }
{
    a == b
}
