// Every set of parities on four columns, with every set of candidates: the column that `column::best_counted` and `column::best_column` choose, beside the
// one furthest from even and the one with the larger side, both found here in another way. A line for each size of a set: the size, how often each of
// the columns 0 to 3 was chosen by all four, and how often the four were not the same. `oracle/columns` makes the same lines by the paper's sentence.
// A set is a number of 16 bits, bit v for the parity v. All 16 parities are taken, 0 too: no contract asks that a parity is another.
#![tactic(auto)]

ghost use Rattle.std.specs.Prelude.{◌≤◌, ◌<◌, IfSome};

use parity::Parity;
use std::io;

// The parities that have a column, as a set.
const HAVING: [u64; 4] = [0xaaaa, 0xcccc, 0xf0f0, 0xff00];

fn count(set: u64) -> u64
    ensures { result ≤ 64 }
{
    u64::from(set.count_ones())
}

// The distance between twice the ones and the size.
fn distance(set: u64, having: u64) -> u64
    ensures { result ≤ 128 }
{
    (2 * count(set & having)).abs_diff(count(set))
}

// The size of the larger side.
fn side(set: u64, having: u64) -> u64
    ensures { result ≤ 128 }
{
    count(set & having).max(count(set & !having))
}

// The candidate with the largest of the columns' numbers, on a tie the highest; 0 where there is none.
fn largest(cands: u64, numbers: [u64; 4]) -> usize
    ensures { result < 4 }
{
    (0..4)
        .filter(|column| (cands >> *column) % 2 == 1)
        .max_by_key(|column| numbers[*column])
        .unwrap_or(0)
}

// What the walk calls; it never asks it of an empty set.
fn by_code(terms: &[u64], cands: Parity) -> u32 {
    if terms.len() < 3 {
        return column::best_counted(terms, cands);
    }
    column::best_column(terms, cands)
}

// The column that all four choose, if they do.
fn chosen(terms: &[u64], set: u64, cands: u64) -> Option<usize>
    ensures { IfSome result (λ column. column < 4) }
{
    let parity = Parity { lo: cands, hi: 0 };
    let column = largest(cands, HAVING.map(|having| distance(set, having)));
    let same = column == largest(cands, HAVING.map(|having| side(set, having)))
        && column == by_code(terms, parity) as usize
        && column == column::best_counted(terms, parity) as usize;
    same.then_some(column)
}

// The parities of a set as terms of turn 0, three numbers each; how many there are.
fn fill(terms: &mut [u64; 48], set: u16) -> usize
    ensures { result ≤ 16 }
{
    let members = (0..16).filter(|v| (set >> *v) % 2 == 1);
    for (term, v) in terms.chunks_exact_mut(3).zip(members) {
        term[0] = v;
    }
    set.count_ones() as usize
}

// The choices of a set with all candidates. No count can wrap, and so written none needs a proof that it doesn't.
fn tally(terms: &[u64], set: u64, counts: &mut [u64; 5]) {
    for cands in 0..16 {
        let at = chosen(terms, set, cands).unwrap_or(4);
        counts[at] = counts[at].wrapping_add(1);
    }
}

fn main(rt: HostRuntime) -> io::Result<()> {
    let mut terms = [0u64; 48];
    let mut counts = [[0u64; 5]; 17];
    for set in 0..=u16::MAX {
        let size = fill(&mut terms, set);
        tally(&terms[..3 * size], u64::from(set), &mut counts[size]);
    }
    for (size, line) in counts.iter().enumerate() {
        print!(rt; "{size}")?;
        for n in line {
            print!(rt; " {n}")?;
        }
        println!(rt;)?;
    }
    Ok(())
}
