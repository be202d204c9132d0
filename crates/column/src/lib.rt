// The column by which a node of the walk is split: the candidate whose split is furthest from even, on a tie the highest. Document 01 says it by the
// larger side, and so do the contracts; `scan` says why that is the same choice.
#![tactic(auto)]

ghost use Rattle.std.specs.Prelude.{◌≡◌, true, false, ◌&&◌, cond, ℕ, ◌+◌, ◌*◌, ◌^◌, ◌≤◌, ◌<◌, length, get_or, eqb};
ghost use Rattle.rules.specs.Bit.{bit};
ghost use Rattle.rules.specs.Walk.{side, beats};
ghost use Rattle.rules.specs.Shortcuts.{any};
ghost use Rattle.parity.specs.View.{val};
ghost use Rattle.terms.specs.Terms.{terms_of, no_term};
ghost use Rattle.rows.specs.Rows.{rows_of};
ghost use Rattle.column.specs.Choice.{Agreed, Nearly, Best};
ghost use Rattle.column.specs.Distance as Distance;
ghost use Rattle.column.specs.Distance.{pair_of, Furthest};
ghost use Rattle.column.specs.Planes.{one, tally, Sifted};

use parity::Parity;

// The best column so far, and how far its split is from even.
#[derive(Clone, Copy)]
pub struct Kept {
    pub column: u32,
    pub distance: usize,
}

// Candidates on which all parities agree, and on which all but one do.
#[derive(Clone, Copy)]
pub struct Surveyed {
    pub whole: Parity,
    pub near: Parity,
}

// The candidates that at least one parity has, by one OR over the set.
pub fn seen(set: &[u64], cands: Parity) -> Parity
    ensures { (i : ℕ) → bit (val result) i ≡ (bit (val cands) i && any i (terms_of set.now)) }
{
    let mut met = Parity::zero();
    for i in 0..set.len() / 3 {
        met = met | terms::get(set, i).parity;
    }
    cands & met
}

// The candidates on which all parities agree, and those on which all but one do, by one pass: `some` and `two` have the columns of at least one
// and of at least two parities, `every` and `most` the candidates that none and that at most one lacks. One parity agrees with itself, so it
// isn't even read.
pub fn survey(set: &[u64], cands: Parity) -> Surveyed
    ensures { (Agreed (terms_of set.now) (val cands) (val result.whole)) × (Nearly (terms_of set.now) (val cands) (val result.near)) }
{
    let count = set.len() / 3;
    if count == 1 {
        return Surveyed {
            whole: cands,
            near: cands,
        };
    }
    let mut some = Parity::zero();
    let mut two = Parity::zero();
    let mut every = cands;
    let mut most = cands;
    for i in 0..count {
        let p = terms::get(set, i).parity;
        two = two | (some & p);
        some = some | p;
        most = every | (most & p);
        every = every & p;
    }
    let whole = every | (cands ^ (cands & some));
    let near = (most ^ every) | (cands & (some ^ two));
    Surveyed { whole, near }
}

// How many of the terms have a column.
pub fn count_ones(set: &[u64], column: u32) -> usize
    requires { column < 128 }
    ensures { result ≡ length (side true column (terms_of set.now)) }
{
    let mut sum = 0;
    for i in 0..set.len() / 3 {
        sum += terms::get(set, i).parity.has(column) as usize;
    }
    sum
}

// A parity is added to the counts of the planes from `from` up; what is carried out of the last.
fn ripple(planes: &mut [Parity], from: usize, p: Parity) -> Parity
    requires { from ≤ length (rows_of planes.old) }
    ensures { (c : ℕ) → tally false c (rows_of planes.new) + 2 ^ length (rows_of planes.old) * one (val result) c ≡ tally false c (rows_of planes.old) + 2 ^ from * one (val p) c }
{
    let mut carry = p;
    for k in from..planes.len() {
        let x = planes[k];
        planes[k] = x ^ carry;
        carry = x & carry;
    }
    carry
}

// Two parities are added at once, which halves the carries.
fn add(planes: &mut [Parity], x: Parity, y: Parity) -> Parity
    requires { 0 < length (rows_of planes.old) }
    ensures { (c : ℕ) → tally false c (rows_of planes.new) + 2 ^ length (rows_of planes.old) * one (val result) c ≡ tally false c (rows_of planes.old) + (one (val x) c + one (val y) c) }
{
    let low = planes[0];
    let apart = x ^ y;
    planes[0] = low ^ apart;
    let both = x & y;
    let carry = both | (low & apart);
    ripple(&mut *planes, 1, carry)
}

// The parity of term i, or none of the columns past the end.
fn parity_at(set: &[u64], i: usize) -> Parity
    ensures { val result ≡ (get_or (terms_of set.now) i no_term).parity }
{
    if i < set.len() / 3 {
        terms::get(set, i).parity
    } else {
        Parity::zero()
    }
}

// How many terms have each column, by one pass over the set.
fn count_columns(set: &[u64], planes: &mut [Parity])
    requires set_len_bound { length (terms_of set.now) < 2 ^ length (rows_of planes.old) }
    requires by_index { (c : ℕ) → tally false c (rows_of planes.old) ≡ 0 }
    ensures { (c : ℕ) → tally false c (rows_of planes.new) ≡ length (side true c (terms_of set.now)) }
{
    for i in (0..set.len() / 3).step_by(2) {
        let x = parity_at(set, i);
        let y = parity_at(set, i + 1);
        add(&mut *planes, x, y);
    }
}

// The new columns, or the old ones where there are none.
fn or_else(new: Parity, old: Parity) -> Parity
    ensures { val result ≡ cond (eqb (val new) 0) (val old) (val new) }
{
    if new.is_zero() { old } else { new }
}

// The candidates whose count is the largest, digit by digit from the highest; with every digit exchanged, the smallest.
fn sift(planes: &[Parity], cands: Parity, flip: Parity) -> Parity
    ensures { Sifted (val cands) (val flip) (rows_of planes.now) (val result) }
{
    let mut left = cands;
    for k in (0..planes.len()).rev() {
        let hit = left & (flip ^ planes[k]);
        left = or_else(hit, left);
    }
    left
}

// The highest of the candidates that most terms have, and the highest of those that fewest have: no other split can be further from even.
fn ends(set: &[u64], cands: Parity, planes: &mut [Parity]) -> Parity
    requires cands_nonzero { 0 < val cands }
    requires set_len_bound { length (terms_of set.now) < 2 ^ length (rows_of planes.old) }
    requires by_index { (c : ℕ) → tally false c (rows_of planes.old) ≡ 0 }
    ensures { (c : ℕ) → Best (terms_of set.now) (val result) c → Best (terms_of set.now) (val cands) c }
{
    count_columns(set, &mut *planes);
    let most = sift(&*planes, cands, Parity::zero());
    let least = sift(&*planes, cands, cands);
    Parity::single(most.highest()) | Parity::single(least.highest())
}

// How many binary digits a number has.
fn digits(n: usize) -> usize
    ensures { (n < 2 ^ result) × (result ≤ 64) }
{
    (usize::BITS - n.leading_zeros()) as usize
}

// How far a split is from even: the distance between twice the ones and the set's size.
fn distance(ones: usize, size: usize) -> usize
    requires { 2 * ones < 2 ^ 64 }
    ensures { result ≡ Distance.distance ones size }
{
    let twice = 2 * ones;
    twice.abs_diff(size)
}

// The column whose split is further from even; on a tie the new one, which is the higher.
// Stays: a derived order is no plainer, since the rule for a tie would hide in the order of the fields.
fn further(old: Kept, new: Kept) -> Kept
    ensures { pair_of result ≡ cond (beats old.distance new.distance) (pair_of new) (pair_of old) }
{
    if old.distance <= new.distance {
        new
    } else {
        old
    }
}

// The paper's choice: of the candidates, from the lowest column up, the one whose split is furthest from even, on a tie the highest.
// It is document 01's choice, by the larger side, because twice the larger side is the size plus the distance, and the size is that of the whole set
// whichever column splits it: the larger the one, the larger the other.
fn scan(set: &[u64], cands: Parity) -> u32
    ensures { Furthest (terms_of set.now) (val cands) result }
{
    let size = set.len() / 3;
    let mut kept = Kept {
        column: 0,
        distance: 0,
    };
    let mut left = cands;
    while !left.is_zero() {
        let column = left.lowest();
        let distance = distance(count_ones(set, column), size);
        kept = further(kept, Kept { column, distance });
        left = left.clear_lowest();
    }
    kept.column
}

// The best candidate by counting. All columns are counted together in one pass, a plane of columns for each binary digit, and at most two are
// left to be scanned.
pub fn best_counted(set: &[u64], cands: Parity) -> u32
    ensures { Best (terms_of set.now) (val cands) result }
{
    if cands.is_zero() {
        return 0;
    }
    let mut planes = [Parity::zero(); 64];
    let end = digits(set.len() / 3);
    let left = ends(set, cands, &mut planes[..end]);
    scan(set, left)
}

// No split is further from even than by a column on which all parities agree, and where there is none, by one on which all but one agree: the highest
// of these wins, and nothing is counted.
pub fn best_column(set: &[u64], cands: Parity) -> u32
    requires { 0 < length (terms_of set.now) }
    ensures { Best (terms_of set.now) (val cands) result }
{
    let s = survey(set, cands);
    if !s.whole.is_zero() {
        return s.whole.highest();
    }
    if !s.near.is_zero() {
        return s.near.highest();
    }
    best_counted(set, cands)
}
