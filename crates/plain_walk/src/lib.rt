// Document 01's phase walk in its plainest form, over lent rooms: the waiting nodes in a stack of their own, their sets side by side in the room of terms. Every
// CNOT passes over all terms that wait as soon as it is made, every candidate column is counted, and every gate is written: nothing is foreseen, put off or given up.
// Stays: beside `walk` and `column` with a choice and with visits of its own, since it exists to check them: what both share a mistake could hide.
#![tactic(auto)]

ghost use Rattle.std.specs.Prelude.{◌≡◌, cond, ℕ, Some, [], ◌∷◌, ◌+◌, ◌-◌, ◌^◌, ◌<◌, ◌≤◌, length, take};
ghost use Rattle.rules.specs.Walk.{free, leaf, node, beats, phase_walk};
ghost use Rattle.rules.specs.Synth as Synth;
ghost use Rattle.rules.specs.Left.{left};
ghost use Rattle.parity.specs.View.{val};
ghost use Rattle.terms.specs.Terms.{terms_of};
ghost use Rattle.rows.specs.Rows.{rows_of};
ghost use Rattle.column.specs.Choice.{Best};
ghost use Rattle.writing.specs.Written.{Wrote, Fits};
ghost use Rattle.walk.specs.Stack.{aim_to, Branched};
ghost use Rattle.walk.specs.Place.{Wires};
ghost use Rattle.plain_walk.specs.Scored.{pair_of};
ghost use Rattle.plain_walk.specs.Place.{place_of, Roomy, Standing, Stepped, Paid, Walks, Lent};

use join::Local;
use parity::Parity;
use walk::{Aim, Slot};

// The best column so far, and the size of its larger side.
#[derive(Clone, Copy)]
pub struct Kept {
    pub column: u32,
    pub score: usize,
}

// How many nodes wait, where the newest one's set ends, and how many gates are written.
#[derive(Clone, Copy)]
pub struct State {
    pub depth: usize,
    pub end: usize,
    pub made: usize,
}

// A column takes the place of the best so far, on a tie too.
fn better(old: Kept, new: Kept) -> Kept
    ensures { pair_of result ≡ cond (beats old.score new.score) (pair_of new) (pair_of old) }
{
    if old.score <= new.score { new } else { old }
}

// The candidate whose larger side is largest, on a tie the highest: from the lowest column up, each is counted over the whole set.
pub fn best_column(set: &[u64], cands: Parity) -> u32
    ensures { Best (terms_of set.now) (val cands) result }
{
    let size = set.len() / 3;
    let mut kept = Kept {
        column: 0,
        score: 0,
    };
    let mut left = cands;
    while !left.is_zero() {
        let column = left.lowest();
        let ones = column::count_ones(set, column);
        let score = ones.max(size - ones);
        kept = better(kept, Kept { column, score });
        left = left.clear_lowest();
    }
    kept.column
}

// A node with no candidates left: the rotation on its target by the sum of its turns; nothing where it has no target.
pub fn end_leaf(
    set: &[u64],
    target: Option<u32>,
    names: &[u32],
    whole: &mut [i32],
    k: usize,
) -> usize
    requires wires { Wires names.now }
    requires target_in_bounds { (t : ℕ) → target ≡ Some t → t < length names.now }
    requires roomy { Roomy names.now (leaf (aim_to target) (terms_of set.now)) whole.old k }
    ensures { Wrote (Synth.emit names.now (leaf (aim_to target) (terms_of set.now))) whole.old k whole.new result }
{
    let Some(t) = target else {
        return k;
    };
    let q = join::wire_of(names, Local(t));
    writing::write_rotation(whole, k, q, walk::sum_turns(set))
}

// The control p that the node at the place `at` owes to t is paid: the CNOT is written, its row added, and the terms of every waiting node take note.
pub fn pay(
    room: &mut [u64],
    nodes: &mut [Slot],
    held: &mut [Parity],
    names: &[u32],
    whole: &mut [i32],
    k: usize,
    at: usize,
    d: Slot,
    p: u32,
    t: u32,
) -> usize
    requires wires { Wires names.now }
    requires owed_in_bounds { (p < length names.now) × (t < length names.now) }
    requires held_len { length (rows_of held.old) ≡ length names.now }
    requires start_in_bounds { (d.start ≤ length (terms_of room.old)) × (at < length nodes.old) }
    requires fits { Fits whole.old k 1 }
    ensures { Paid names.now p t d at (terms_of room.old) (terms_of room.new) nodes.old nodes.new (rows_of held.old) (rows_of held.new) whole.old k whole.new result }
{
    let control = join::wire_of(names, Local(p));
    let target = join::wire_of(names, Local(t));
    let next = writing::write_cnot(whole, k, control, target);
    rows::add(held, p as usize, t as usize);
    terms::flip_by(room, d.start, Parity::single(p), t);
    nodes[at] = d.paid();
    next
}

// The newest node, at the place `at`, is split by its best column: the side with it stays, the side without goes on top and runs first.
pub fn branch(room: &mut [u64], nodes: &mut [Slot], at: usize, d: Slot, end: usize)
    requires start_le_end { (d.start ≤ end) × (end ≤ length (terms_of room.old)) }
    requires at_in_bounds { at + 1 < length nodes.old }
    ensures { Branched d at end (terms_of room.old) (terms_of room.new) nodes.old nodes.new }
{
    let a = 3 * d.start;
    let e = 3 * end;
    let c = best_column(&room[a..e], d.cands);
    let ones = terms::split_at(room, d.start, end, c);
    let rest = d.cands ^ Parity::single(c);
    let above = at + 1;
    let with = d.takes(rest, c);
    let without = d.leaves(rest, ones);
    nodes[at] = with;
    nodes[above] = without;
}

// One visit, of the newest node, by document 01's four rules.
pub fn step(
    room: &mut [u64],
    nodes: &mut [Slot],
    held: &mut [Parity],
    names: &[u32],
    whole: &mut [i32],
    s: State,
) -> State
    requires standing { Standing names.now (place_of nodes.old room.old held.old whole.old s) }
    requires depth_nonzero { 0 < s.depth }
    ensures { Stepped names.now (place_of nodes.old room.old held.old whole.old s) (place_of nodes.new room.new held.new whole.new result) }
{
    let at = s.depth - 1;
    let d = nodes[at];
    let end = s.end;
    let k = s.made;
    if d.start == end {
        return State { depth: at, ..s };
    }
    if let Aim::Owes { control, target } = d.aim {
        let made = pay(room, nodes, held, names, whole, k, at, d, control, target);
        return State { made, ..s };
    }
    let target = d.aim.target();
    if d.cands.is_zero() {
        let made = end_leaf(&room[3 * d.start..3 * end], target, names, whole, k);
        return State {
            depth: at,
            end: d.start,
            made,
        };
    }
    branch(room, nodes, at, d, end);
    State {
        depth: s.depth + 1,
        ..s
    }
}

// The walk of all the terms of a room over n columns, visit by visit until no node waits: its gates are written behind k others, and `held` follows.
pub fn walk_terms(
    room: &mut [u64],
    n: u32,
    nodes: &mut [Slot],
    held: &mut [Parity],
    names: &[u32],
    whole: &mut [i32],
    k: usize,
) -> usize
    requires { Lent n names.now nodes.old held.old (left n (node (2 ^ n - 1) free (terms_of room.old) ∷ [])) whole.old k }
    ensures { Walks names.now (left n (node (2 ^ n - 1) free (terms_of room.old) ∷ [])) whole.old k (rows_of held.old) whole.new result (rows_of held.new) }
{
    nodes[0] = Slot::first(Parity::all(n));
    let mut s = State {
        depth: 1,
        end: room.len() / 3,
        made: k,
    };
    while s.depth > 0 {
        s = step(&mut *room, &mut *nodes, &mut *held, names, &mut *whole, s);
    }
    s.made
}

// Document 01's phase walk of the room's first `count` terms over n columns: only those other than 0 enter.
pub fn phase_walk(
    room: &mut [u64],
    count: usize,
    n: u32,
    nodes: &mut [Slot],
    held: &mut [Parity],
    names: &[u32],
    whole: &mut [i32],
    k: usize,
) -> usize
    requires count_in_bounds { count ≤ length (terms_of room.old) }
    requires lent { Lent n names.now nodes.old held.old (phase_walk n (take count (terms_of room.old))) whole.old k }
    ensures { Walks names.now (phase_walk n (take count (terms_of room.old))) whole.old k (rows_of held.old) whole.new result (rows_of held.new) }
{
    let entering = terms::compact(&mut *room, count);
    let end = 3 * entering;
    walk_terms(&mut room[..end], n, nodes, held, names, whole, k)
}
