// The term room: terms side by side in a lent room, three numbers to a term: a parity's low word, its high word, and a word that is its turn and 8 times
// a link. The links and another lent room, the heads, are an index: for each hash a chain of the terms with it.
// Stays: the room is numbers and not entries, since a caller in another language lends it.
#![tactic(auto)]

ghost use Rattle.std.specs.Prelude.{◌≡◌, Bool, SomeIff, ◌/◌, ◌^◌, ◌<◌, ◌≤◌, length, take, get_or, eqb};
ghost use Rattle.rules.specs.Fold.{Term, signed, add_term};
ghost use Rattle.rules.specs.Walk.{nonzero};
ghost use Rattle.rules.specs.Shortcuts.{flip_terms};
ghost use Rattle.parity.specs.View.{val};
ghost use Rattle.terms.specs.Terms.{terms_of, words_of, term_of, no_term, exchanged, place, slot_of, last_of, link_of, parity_at, link_at, Indexed, Begins, Stores, Adds, Tells, Gathers, Sides, SplitAt};

use parity::Parity;

// A term as the code holds it: `turn` is the whole word, and the turn that word modulo 8.
#[derive(Clone, Copy)]
pub struct Entry {
    pub parity: Parity,
    pub turn: u64,
}

#[tactic(auto, using(crate::proofs::Room::room_size))]
pub fn get(room: &[u64], i: usize) -> Entry
    requires { i < length (terms_of room.now) }
    ensures { term_of result ≡ get_or (terms_of room.now) i no_term }
{
    let at = 3 * i;
    let lo = room[at];
    let hi = room[at + 1];
    let turn = room[at + 2];
    Entry {
        parity: Parity { lo, hi },
        turn,
    }
}

#[tactic(auto, using(crate::proofs::Room::room_size))]
pub fn put(room: &mut [u64], i: usize, e: Entry)
    requires { i < length (terms_of room.old) }
    ensures { Stores i (term_of e) e.turn room.old room.new }
{
    let at = 3 * i;
    room[at] = e.parity.lo;
    room[at + 1] = e.parity.hi;
    room[at + 2] = e.turn;
}

#[tactic(auto, using(crate::proofs::Room::room_size))]
pub fn exchange(room: &mut [u64], i: usize, j: usize)
    requires { (i < length (terms_of room.old)) × (j < length (terms_of room.old)) }
    ensures { terms_of room.new ≡ exchanged (terms_of room.old) i j }
{
    let x = get(&*room, i);
    let y = get(&*room, j);
    put(&mut *room, i, y);
    put(&mut *room, j, x);
}

// A term's third word.
#[tactic(auto, using(crate::proofs::Room::room_size))]
fn word(room: &[u64], i: usize) -> u64
    requires { i < length (terms_of room.now) }
    ensures { result ≡ get_or (words_of room.now) i 0 }
{
    room[3 * i + 2]
}

// A parity's hash, below the number of heads. The factors are of 32 bits, so that no product wraps.
fn slot(p: Parity, n: usize) -> usize
    requires { n ≤ 2 ^ 32 }
    ensures { result ≡ slot_of n (val p) }
{
    let low = p.lo % 4294967296 * 2654435769 ^ p.lo / 4294967296 * 2246822519;
    let high = p.hi % 4294967296 * 3266489917 ^ p.hi / 4294967296 * 668265263;
    let mix = (low ^ high) % 4294967296;
    (mix * (n as u64) / 4294967296) as usize
}

// The last of the first `count` places with the hash h. A head counts only if it is one of these places and the term there has the hash, so no head is
// ever cleared.
fn last(room: &[u64], count: usize, h: usize, heads: &[u32]) -> Option<usize>
    requires { (count ≤ length (terms_of room.now)) × ((h < length heads.now) × Indexed heads.now room.now count) }
    ensures { link_of result ≡ last_of (λ j. slot_of (length heads.now) (parity_at room.now j)) h count }
{
    let at = heads[h] as usize;
    if count <= at {
        return None;
    }
    let e = get(room, at);
    if slot(e.parity, heads.len()) == h {
        Some(at)
    } else {
        None
    }
}

// A link as a term's word has it: 1 + the place, or 0.
fn linked(next: Option<usize>) -> u64
    requires { link_of next < 2 ^ 64 }
    ensures { result ≡ link_of next }
{
    match next {
        Some(i) => i as u64 + 1,
        None => 0,
    }
}

// The place that a term links to.
fn link(room: &[u64], i: usize) -> Option<usize>
    requires { i < length (terms_of room.now) }
    ensures { link_of result ≡ link_at room.now i }
{
    let next = (word(room, i) / 8) as usize;
    if next == 0 { None } else { Some(next - 1) }
}

// Whether the term at i has the parity p.
fn meets(room: &[u64], i: usize, p: Parity) -> bool
    requires { i < length (terms_of room.now) }
    ensures { result ≡ eqb (parity_at room.now i) (val p) }
{
    get(room, i).parity == p
}

// The place of the first of the first `count` terms whose parity is p: the head of its hash, which it mostly is, or down the chain.
pub fn find(room: &[u64], count: usize, p: Parity, heads: &[u32]) -> Option<usize>
    requires { (count ≤ length (terms_of room.now)) × Indexed heads.now room.now count }
    ensures { SomeIff result (place (val p) (take count (terms_of room.now)) < count) (place (val p) (take count (terms_of room.now))) }
{
    let h = slot(p, heads.len());
    let head = heads[h] as usize;
    if head < count && meets(room, head, p) {
        return Some(head);
    }
    let mut next = last(room, count, h, heads);
    while let Some(i) = next {
        if meets(room, i, p) {
            return Some(i);
        }
        next = link(room, i);
    }
    None
}

// Folds a turn onto the parity p, negated if the wire's constant is true; how many terms there are then. A term that becomes 0 stays. A new term is
// the head of its hash, and links to the head before it.
pub fn add_term(
    room: &mut [u64],
    count: usize,
    p: Parity,
    flips: bool,
    k: u8,
    heads: &mut [u32],
) -> usize
    requires { (count < length (terms_of room.old)) × ((count < 2 ^ 32) × Indexed heads.old room.old count) }
    ensures { Adds (add_term (val p) (signed flips k) (take count (terms_of room.old))) result room.old room.new heads.new }
{
    let added = turn::signed(flips, k);
    if let Some(at) = find(&*room, count, p, &*heads) {
        let old = word(&*room, at);
        let sum = turn::fold((old % 8) as u8, added) as u64;
        let turn = old / 8 * 8 + sum;
        put(&mut *room, at, Entry { parity: p, turn });
        return count;
    }
    let h = slot(p, heads.len());
    let next = linked(last(&*room, count, h, &*heads));
    let turn = 8 * next + added as u64;
    put(&mut *room, count, Entry { parity: p, turn });
    heads[h] = count as u32;
    count + 1
}

// Of the first `count` terms, those that `keep` takes come first, in order; how many they are. What it says is counted as a number, so that the loop
// has no branch on data.
#[tactic(auto, using(crate::proofs::Room::room_size))]
fn gather<F: Fn(Entry) -> bool>(room: &mut [u64], count: usize, keep: F) -> usize
    requires inside { count ≤ length (terms_of room.old) }
    requires callable { F.IsAlwaysCallable keep }
    ensures { (keeps : Term → Bool) → Tells (F.post keep) keeps → Gathers keeps count (terms_of room.old) result (terms_of room.new) }
{
    let mut mid = 0;
    for k in 0..count {
        let e = get(&*room, k);
        exchange(&mut *room, mid, k);
        mid += keep(e) as usize;
    }
    mid
}

// Of the first `count` terms, those other than 0 modulo 8 come first, in order; how many they are.
pub fn compact(room: &mut [u64], count: usize) -> usize
    requires { count ≤ length (terms_of room.old) }
    ensures { Begins (nonzero (take count (terms_of room.old))) result count (terms_of room.old) (terms_of room.new) }
{
    gather(room, count, |e| e.turn % 8 != 0)
}

// Splits the terms by a column: those with it first, in order, then those without. How many have it.
#[tactic(auto, using(crate::proofs::Room::room_size))]
pub fn split(room: &mut [u64], column: u32) -> usize
    requires { column < 128 }
    ensures { Sides column (terms_of room.old) (terms_of room.new) result }
{
    let count = room.len() / 3;
    gather(room, count, |e| e.parity.has(column))
}

// The same of the terms from `from` up to `to`, with the rest of the room as it was.
// Stays: beside `split`, since how many numbers make a term is known in this crate alone.
#[tactic(auto, using(crate::proofs::Room::room_size))]
pub fn split_at(room: &mut [u64], from: usize, to: usize, column: u32) -> usize
    requires { (column < 128) × ((from ≤ to) × (to ≤ length (terms_of room.old))) }
    ensures { SplitAt column from to (terms_of room.old) (terms_of room.new) result }
{
    split(&mut room[3 * from..3 * to], column)
}

// CNOTs from the columns of a mask to t pass the first `count` terms, all at once: a parity with bit t has the mask's columns flipped.
#[tactic(auto, using(crate::proofs::Room::room_size))]
pub fn flip_by(room: &mut [u64], count: usize, mask: Parity, t: u32)
    requires { (t < 128) × (count ≤ length (terms_of room.old)) }
    ensures { Begins (flip_terms (val mask) t (take count (terms_of room.old))) count count (terms_of room.old) (terms_of room.new) }
{
    let picks = mask.table();
    for k in 0..count {
        let e = get(&*room, k);
        let digit = e.parity.digit(t);
        let parity = e.parity ^ Parity::pick(&picks, digit);
        put(&mut *room, k, Entry { parity, ..e });
    }
}
