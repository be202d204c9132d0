// Document 01's phase walk over lent rooms: the waiting nodes in a stack of their own, their sets side by side in the room of terms. Of the CNOTs that a
// target has had, the terms that wait take note all at once, when their turn or another target's comes.
// Stays: the rooms go side by side and not in one struct, since each function is lent others of them, and its signature shows which it leaves alone.
#![tactic(auto)]

ghost use Rattle.std.specs.Prelude.{◌≡◌, ◌≢◌, false, ℕ, Some, [], ◌∷◌, ◌+◌, ◌-◌, ◌%◌, ◌^◌, ◌<◌, ◌≤◌, length, get_or};
ghost use Rattle.rules.specs.Bit.{bit, xor};
ghost use Rattle.rules.specs.Walk.{free, turns, leaf, node};
ghost use Rattle.rules.specs.Synth as Synth;
ghost use Rattle.rules.specs.Left.{left};
ghost use Rattle.rules.specs.Shortcuts.{downs};
ghost use Rattle.parity.specs.View.{val};
ghost use Rattle.budget.specs.View.{view, counts_after, made};
ghost use Rattle.terms.specs.Terms.{terms_of};
ghost use Rattle.rows.specs.Rows.{rows_of};
ghost use Rattle.emit.specs.Emitted.{Ready, Emits};
ghost use Rattle.walk.specs.Stack.{no_slot, aim_to, Branched, Peeled, Chosen};
ghost use Rattle.walk.specs.Stack as Stack;
ghost use Rattle.walk.specs.Later.{flip_between, current, no_flips, Waits, Settles, Deferred};
ghost use Rattle.walk.specs.Place.{Wires, place_of, Standing, Readied, Stepped, Paid, Descends, Lent, Synthesized};

use budget::{Budget, Spent};
use join::Local;
use parity::Parity;

// What a waiting node has: no target yet, a target, or a target and a control that is owed to it.
#[derive(Clone, Copy)]
pub enum Aim {
    Free,
    On(u32),
    Owes { control: u32, target: u32 },
}

impl Aim {
    pub fn target(self) -> Option<u32>
        ensures { result ≡ Stack.target_of self }
    {
        match self {
            Aim::Free => None,
            Aim::On(target) => Some(target),
            Aim::Owes { target, .. } => Some(target),
        }
    }
}

// A waiting node. Its set ends where that of the next begins.
#[derive(Clone, Copy)]
pub struct Slot {
    pub cands: Parity,
    pub aim: Aim,
    pub start: usize,
}

impl Slot {
    // The node with which the walk begins: no target, all the terms.
    pub fn first(cands: Parity) -> Slot
        ensures { result ≡ Stack.first cands }
    {
        Slot {
            cands,
            aim: Aim::Free,
            start: 0,
        }
    }

    // What is owed is paid; the target stays.
    pub fn paid(self) -> Slot
        ensures { result ≡ Stack.paid self }
    {
        let aim = match self.aim {
            Aim::Free => Aim::Free,
            Aim::On(target) => Aim::On(target),
            Aim::Owes { target, .. } => Aim::On(target),
        };
        Slot { aim, ..self }
    }

    // Only these candidates are left.
    fn narrowed(self, live: Parity) -> Slot
        ensures { result ≡ Stack.narrowed self live }
    {
        Slot {
            cands: live,
            ..self
        }
    }

    // The side with the column c: it takes c as target or, with a target, owes c to it.
    pub fn takes(self, rest: Parity, c: u32) -> Slot
        ensures { result ≡ Stack.takes self rest c }
    {
        let aim = match self.aim.target() {
            None => Aim::On(c),
            Some(target) => Aim::Owes { control: c, target },
        };
        Slot {
            cands: rest,
            aim,
            start: self.start,
        }
    }

    // The side without: its set begins where the other's ends.
    pub fn leaves(self, rest: Parity, ones: usize) -> Slot
        requires { self.start + ones < 2 ^ 64 }
        ensures { result ≡ Stack.leaves self rest ones }
    {
        Slot {
            cands: rest,
            aim: self.aim,
            start: self.start + ones,
        }
    }
}

// Flips that wait: the terms before the place `upto` have yet to have the mask's columns flipped where they have the target, which is none of these columns.
#[derive(Clone, Copy)]
pub struct Pending {
    pub mask: Parity,
    pub target: u32,
    pub upto: usize,
}

impl Pending {
    // No flips wait.
    fn none() -> Pending
        ensures { result ≡ no_flips }
    {
        Pending {
            mask: Parity { lo: 0, hi: 0 },
            target: 0,
            upto: 0,
        }
    }
}

// How many nodes wait, where the newest one's set ends, and the flips that wait.
#[derive(Clone, Copy)]
pub struct State {
    pub depth: usize,
    pub end: usize,
    pub pending: Pending,
}

// The sum of a set's turns.
pub fn sum_turns(set: &[u64]) -> u8
    ensures { result ≡ turns (terms_of set.now) % 8 }
{
    let mut sum = 0;
    for i in 0..set.len() / 3 {
        let e = terms::get(set, i);
        sum = turn::fold(sum, (e.turn % 8) as u8);
    }
    sum
}

// A node with no candidates left: the rotation on its target by the sum of its turns; nothing where it has no target.
pub fn end_leaf(
    set: &[u64],
    target: Option<u32>,
    names: &[u32],
    out: &mut [i32],
    b: Budget,
) -> Result<Budget, Spent>
    requires wires { Wires names.now }
    requires target_in_bounds { (t : ℕ) → target ≡ Some t → t < length names.now }
    requires ready { Ready out.old (view b) }
    ensures { Emits (Synth.emit names.now (leaf (aim_to target) (terms_of set.now))) out.old (view b) out.new (counts_after result) (made result) }
{
    let Some(t) = target else {
        return Ok(b);
    };
    let q = join::wire_of(names, Local(t));
    emit::emit_rotation(out, b, q, sum_turns(set))
}

// The terms from `from` up to `to` have the mask's columns flipped where they have t; the rest of the room is as it was.
pub fn flip_between(room: &mut [u64], from: usize, to: usize, mask: Parity, t: u32)
    requires { (t < 128) × ((from ≤ to) × (to ≤ length (terms_of room.old))) }
    ensures { terms_of room.new ≡ flip_between (val mask) t from to (terms_of room.old) }
{
    let a = 3 * from;
    let e = 3 * to;
    let count = to - from;
    terms::flip_by(&mut room[a..e], count, mask, t);
}

// The terms from `from` on are brought up to date.
pub fn settle(room: &mut [u64], p: Pending, from: usize) -> Pending
    requires { Waits p (length (terms_of room.old)) }
    ensures { Settles from p result (terms_of room.old) (terms_of room.new) }
{
    if from < p.upto {
        flip_between(room, from, p.upto, p.mask, p.target);
        Pending { upto: from, ..p }
    } else {
        p
    }
}

// CNOTs to t from the columns of a mask pass the terms before `start`, all of which then wait for them. Those of another target that still wait are made first;
// those of the same one join, and the terms that are already up to date are taken back to where the others stand.
pub fn defer(room: &mut [u64], p: Pending, start: usize, mask: Parity, t: u32) -> Pending
    requires waits { Waits p (length (terms_of room.old)) }
    requires upto_le_start { (p.upto ≤ start) × (start ≤ length (terms_of room.old)) }
    requires t_bound { (t < 128) × (bit (val mask) t ≡ false) }
    ensures { Deferred (val mask) t start p result (terms_of room.old) (terms_of room.new) }
{
    if p.target == t {
        flip_between(room, p.upto, start, p.mask, t);
        Pending {
            mask: p.mask ^ mask,
            target: t,
            upto: start,
        }
    } else {
        terms::flip_by(room, p.upto, p.mask, p.target);
        Pending {
            mask,
            target: t,
            upto: start,
        }
    }
}

// The control p that the node at the place `at` owes to t is paid: the CNOT is emitted, its row added, and the terms of every waiting node are to take note,
// though the budget is spent.
pub fn pay(
    room: &mut [u64],
    nodes: &mut [Slot],
    held: &mut [Parity],
    names: &[u32],
    out: &mut [i32],
    b: Budget,
    at: usize,
    d: Slot,
    p: u32,
    t: u32,
    f: &mut Pending,
) -> Result<Budget, Spent>
    requires wires { Wires names.now }
    requires owed_in_bounds { (p < length names.now) × (t < length names.now) }
    requires held_len { length (rows_of held.old) ≡ length names.now }
    requires start_in_bounds { (d.start ≤ length (terms_of room.old)) × (at < length nodes.old) }
    requires ready { Ready out.old (view b) }
    requires waits { Waits f.old (length (terms_of room.old)) × (f.old.upto ≤ d.start) }
    requires owed_nonzero { p ≢ t }
    ensures { Paid names.now p t d at (current f.old (terms_of room.old)) (current f.new (terms_of room.new)) nodes.old nodes.new (rows_of held.old) (rows_of held.new) out.old (view b) out.new (counts_after result) (made result) × Waits f.new (length (terms_of room.new)) }
{
    let control = join::wire_of(names, Local(p));
    let target = join::wire_of(names, Local(t));
    let pushed = emit::emit_cnot(out, b, control, target);
    rows::add(held, p as usize, t as usize);
    *f = defer(room, *f, d.start, Parity::single(p), t);
    nodes[at] = d.paid();
    pushed
}

// The newest node, at the place `at`, is split by its best column: the side with it stays, the side without goes on top and runs first.
pub fn branch(room: &mut [u64], nodes: &mut [Slot], at: usize, d: Slot, end: usize)
    requires start_lt_end { (d.start < end) × (end ≤ length (terms_of room.old)) }
    requires at_in_bounds { at + 1 < length nodes.old }
    ensures { Branched d at end (terms_of room.old) (terms_of room.new) nodes.old nodes.new }
{
    let a = 3 * d.start;
    let e = 3 * end;
    let c = column::best_column(&room[a..e], d.cands);
    let ones = terms::split_at(room, d.start, end, c);
    let rest = d.cands ^ Parity::single(c);
    let above = at + 1;
    let with = d.takes(rest, c);
    let without = d.leaves(rest, ones);
    nodes[at] = with;
    nodes[above] = without;
}

// A column, and the others of its mask.
#[derive(Clone, Copy)]
pub struct Taken {
    pub column: u32,
    pub mask: Parity,
}

// The highest column of a mask is taken out.
fn take_highest(mask: Parity) -> Taken
    ensures { Peeled (val mask) result.column (val result.mask) }
{
    let column = mask.highest();
    Taken {
        column,
        mask: mask ^ Parity::single(column),
    }
}

// Where a node of one term goes: its target with the live candidates or, with no target yet, the highest of these with the others.
fn choose(target: Option<u32>, live: Parity) -> Taken
    ensures { Chosen target (val live) result.column (val result.mask) }
{
    match target {
        None => take_highest(live),
        Some(column) => Taken { column, mask: live },
    }
}

// A CNOT to t from each column of the mask, from the highest down: each is emitted and its row added, as long as the budget is kept.
pub fn chain(
    held: &mut [Parity],
    names: &[u32],
    out: &mut [i32],
    b: Budget,
    mask: Parity,
    t: u32,
) -> Result<Budget, Spent>
    requires wires { Wires names.now }
    requires t_in_bounds { (t < length names.now) × (val mask < 2 ^ length names.now) }
    requires held_len { length (rows_of held.old) ≡ length names.now }
    requires ready { Ready out.old (view b) }
    ensures { Synthesized names.now (downs (length names.now) t (val mask)) out.old (view b) (rows_of held.old) out.new (counts_after result) (rows_of held.new) (made result) }
{
    let target = join::wire_of(names, Local(t));
    let mut rest = mask;
    let mut budget = b;
    while !rest.is_zero() {
        let next = take_highest(rest);
        let c = next.column;
        let control = join::wire_of(names, Local(c));
        let pushed = emit::emit_cnot(&mut *out, budget, control, target);
        rows::add(&mut *held, c as usize, t as usize);
        budget = pushed?;
        rest = next.mask;
    }
    Ok(budget)
}

// A node of one term is run down at once: a CNOT from each live column to its target, and the rotation. The terms of the waiting nodes are to be flipped by
// all the columns, which is right because none of them is the target; that comes first, so that it is noted though the budget is spent.
pub fn run_down(
    room: &mut [u64],
    held: &mut [Parity],
    names: &[u32],
    out: &mut [i32],
    b: Budget,
    start: usize,
    end: usize,
    target: Option<u32>,
    live: Parity,
    f: &mut Pending,
) -> Result<Budget, Spent>
    requires wires { Wires names.now }
    requires target_in_bounds { (t : ℕ) → target ≡ Some t → t < length names.now }
    requires live_in_bounds { (val live ≢ 0) × (val live < 2 ^ length names.now) }
    requires held_len { length (rows_of held.old) ≡ length names.now }
    requires start_le_end { (start ≤ end) × (end ≤ length (terms_of room.old)) }
    requires ready { Ready out.old (view b) }
    requires waits { Waits f.old (length (terms_of room.old)) × (f.old.upto ≤ start) }
    requires target_value { (t : ℕ) → target ≡ Some t → bit (val live) t ≡ false }
    ensures { Descends names.now target (val live) start end (current f.old (terms_of room.old)) (current f.new (terms_of room.new)) (rows_of held.old) (rows_of held.new) out.old (view b) out.new (counts_after result) (made result) × Waits f.new (length (terms_of room.new)) }
{
    let goal = choose(target, live);
    let t = goal.column;
    *f = defer(&mut *room, *f, start, goal.mask, t);
    let budget = chain(&mut *held, names, &mut *out, b, goal.mask, t)?;
    end_leaf(&room[3 * start..3 * end], Some(t), names, &mut *out, budget)
}

// The newest node's set is brought up to date.
fn ready(room: &mut [u64], nodes: &[Slot], s: State) -> State
    requires depth_nonzero { (0 < s.depth) × (s.depth - 1 < length nodes.now) }
    requires waits { Waits s.pending (length (terms_of room.old)) }
    ensures { Readied nodes.now room.old room.new s result }
{
    let d = nodes[s.depth - 1];
    let pending = settle(room, s.pending, d.start);
    State { pending, ..s }
}

// One turn of the walk, at the newest node, whose set is up to date, by document 01's four rules. Candidates that no term of its set has are dropped before the last two:
// a split by such a column would only take the column out. Those of a node of one term are then all columns of it, and all its turns are made at once.
pub fn step(
    room: &mut [u64],
    nodes: &mut [Slot],
    held: &mut [Parity],
    names: &[u32],
    out: &mut [i32],
    b: Budget,
    s: &mut State,
) -> Result<Budget, Spent>
    requires standing { Standing names.now (place_of nodes.old room.old held.old out.old s.old (view b)) }
    requires depth_nonzero { 0 < s.old.depth }
    requires waits { Waits s.old.pending (length (terms_of room.old)) × (s.old.pending.upto ≤ (get_or nodes.old (s.old.depth - 1) no_slot).start) }
    ensures { Stepped names.now (place_of nodes.old room.old held.old out.old s.old (view b)) (place_of nodes.new room.new held.new out.new s.new (counts_after result)) (made result) × Waits s.new.pending (length (terms_of room.new)) }
{
    let at = s.depth - 1;
    let d = nodes[at];
    let end = s.end;
    if d.start == end {
        s.depth = at;
        return Ok(b);
    }
    if let Aim::Owes { control, target } = d.aim {
        return pay(
            room,
            nodes,
            held,
            names,
            out,
            b,
            at,
            d,
            control,
            target,
            &mut s.pending,
        );
    }
    let target = d.aim.target();
    let live = column::seen(&room[3 * d.start..3 * end], d.cands);
    if live.is_zero() {
        s.depth = at;
        s.end = d.start;
        return end_leaf(&room[3 * d.start..3 * end], target, names, out, b);
    }
    if end - d.start == 1 {
        s.depth = at;
        s.end = d.start;
        return run_down(
            room,
            held,
            names,
            out,
            b,
            d.start,
            end,
            target,
            live,
            &mut s.pending,
        );
    }
    branch(room, nodes, at, d.narrowed(live), end);
    s.depth += 1;
    Ok(b)
}

// The phase walk of a block's terms over n columns: its steps are emitted, and `held` follows. It ends early where the budget is spent.
pub fn gray_synth(
    room: &mut [u64],
    n: u32,
    nodes: &mut [Slot],
    held: &mut [Parity],
    names: &[u32],
    out: &mut [i32],
    b: Budget,
) -> Result<Budget, Spent>
    requires { Lent n names.now nodes.old held.old out.old (view b) }
    ensures { Synthesized names.now (left n (node (2 ^ n - 1) free (terms_of room.old) ∷ [])) out.old (view b) (rows_of held.old) out.new (counts_after result) (rows_of held.new) (made result) }
{
    nodes[0] = Slot::first(Parity::all(n));
    let mut s = State {
        depth: 1,
        end: room.len() / 3,
        pending: Pending::none(),
    };
    let mut budget = b;
    while s.depth > 0 {
        s = ready(&mut *room, &*nodes, s);
        budget = step(
            &mut *room,
            &mut *nodes,
            &mut *held,
            names,
            &mut *out,
            budget,
            &mut s,
        )?;
    }
    Ok(budget)
}
