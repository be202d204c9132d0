// The scan: the list cut into blocks and copied gates, each block written again where that is cheaper, the result side by side in the output.
#![tactic(auto)]

ghost use Rattle.std.specs.Prelude.{◌≡◌, cond, ◌++◌, ℕ, suc, ◌+◌, ◌≤◌, min, length};
ghost use Rattle.rules.specs.Limits.{max_gates, max_columns};
ghost use Rattle.rules.specs.Numbers.{gate_at, gates_of, numbers};
ghost use Rattle.rules.specs.Pass.{writer_of};
ghost use Rattle.plan.specs.View.{view};
ghost use Rattle.flush.specs.Choice.{Flushable, Flushes};
ghost use Rattle.scan.specs.Scanning.{made, most_heads, Spared, Suits, Placed, Headed, Foldable, Stops, Closable, Closes, Copyable, Low, Ready, Advances, Scannable, Scans};

use block::Block;
use flush::{Flushed, STACK};
use parity::Parity;
use plan::Plan;
use rules::{GATE_WIDTH, MAX_COLUMNS};
use walk::Slot;

// Heads of an index at most: 16 KB of numbers, so that they stay near.
pub const HEADS: usize = 4096;

// The next gate, and what was made of those before: gates written, blocks closed, blocks replaced.
#[derive(Clone, Copy)]
pub struct Tally {
    pub at: usize,
    pub gates: usize,
    pub blocks: usize,
    pub replaced: usize,
}

impl Tally {
    // Before the first gate.
    pub fn new() -> Tally
        ensures { result ≡ record { at = 0; gates = 0; blocks = 0; replaced = 0 } }
    {
        Tally {
            at: 0,
            gates: 0,
            blocks: 0,
            replaced: 0,
        }
    }

    // A gate more, copied outside any block.
    pub fn copied(self) -> Tally
        requires { Low self }
        ensures { result ≡ record { at = self.at + 1; gates = self.gates + 1; blocks = self.blocks; replaced = self.replaced } }
    {
        Tally {
            at: self.at + 1,
            gates: self.gates + 1,
            ..self
        }
    }

    // A block more, which ends at `end`.
    pub fn closed(self, end: usize, f: Flushed) -> Tally
        requires { Low self × (f.gates ≤ max_gates) }
        ensures { result ≡ record { at = end; gates = self.gates + f.gates; blocks = self.blocks + 1; replaced = self.replaced + cond f.replaced 1 0 } }
    {
        Tally {
            at: end,
            gates: self.gates + f.gates,
            blocks: self.blocks + 1,
            replaced: self.replaced + usize::from(f.replaced),
        }
    }
}

// An engine: what it makes of a closed block, in rooms of its own and in `whole`, which is lent.
pub trait Engine {
    // How many gates a run may have and how many wires a block, and how many numbers `whole` then has.
    ghost most_gates: { ℕ };

    ghost most_wires: { ℕ };

    ghost needs: { ℕ };

    // The choice at the block's place: `run` is its gates, `place` its own place in the output, as long as the run. Its wires leave the join table.
    fn flush(
        &mut self,
        run: &[i32],
        place: &mut [i32],
        block: &Block,
        table: &mut [u32],
        room: &mut [u64],
        steps: &mut [u32],
        whole: &mut [i32],
        plan: Plan,
    ) -> Flushed
        requires flushable { Flushable run.now block.now table.old room.old }
        requires lent { Placed run.now place.old steps.old }
        requires few { (length (gates_of run.now) ≤ most_gates) × (block.now.wires ≤ most_wires) }
        requires long { needs ≤ length whole.old }
        ensures { Flushes (writer_of (view plan)) run.now place.new block.now table.new result };
}

// The first engine's rooms, made once for all blocks.
#[derive(Drop)]
struct Rooms {
    nodes: [Slot; STACK],
    held: [Parity; MAX_COLUMNS],
    right: [Parity; MAX_COLUMNS],
}

impl Rooms {
    fn new() -> Rooms {
        Rooms {
            nodes: [Slot::first(Parity::zero()); STACK],
            held: [Parity::zero(); MAX_COLUMNS],
            right: [Parity::zero(); MAX_COLUMNS],
        }
    }
}

// It takes every list and every block, and needs no room beside its own.
impl Engine for Rooms {
    ghost most_gates = { max_gates };

    ghost most_wires = { max_columns };

    ghost needs = { 0 };

    fn flush(
        &mut self,
        run: &[i32],
        place: &mut [i32],
        block: &Block,
        table: &mut [u32],
        room: &mut [u64],
        steps: &mut [u32],
        _whole: &mut [i32],
        plan: Plan,
    ) -> Flushed {
        flush::flush(
            run,
            place,
            block,
            table,
            room,
            &mut self.nodes,
            &mut self.held,
            &mut self.right,
            steps,
            plan,
        )
    }
}

// The gates from `start` on, folded onto the emptied block as far as it takes them; the place behind them. `heads` are for the index of its terms, and may hold any numbers.
pub fn fold_run(
    list: &[i32],
    start: usize,
    block: &mut Block,
    table: &mut [u32],
    room: &mut [u64],
    plan: Plan,
    heads: &mut [u32],
) -> usize
    requires foldable { Foldable (view plan) list.now start table.old room.old }
    requires headed { Headed heads.old }
    ensures { Stops (view plan) list.now start block.new result table.new room.new }
{
    let n = list.len() / GATE_WIDTH;
    block.clear();
    // As their types say, which the proof of the loop reads from here.
    prove!(block.names[..].len() == MAX_COLUMNS);
    prove!(block.rows[..].len() == MAX_COLUMNS);
    for i in start..n {
        let g = gate::read(list, i);
        if !taking::takes(&*block, g, &*table, &*room, plan, &*heads) {
            return i;
        }
        absorb::absorb(&mut *block, g, &mut *table, &mut *room, &mut *heads);
    }
    n
}

// How many heads stand at the front of a step room, which is free while a block is folded.
pub fn heads_in(n: usize) -> usize
    ensures { result ≡ min n most_heads }
{
    n.min(HEADS)
}

// The run from gate `start` to `end`, whose block is folded, written behind the m gates of the output.
fn close<E: Engine>(
    list: &[i32],
    start: usize,
    end: usize,
    block: &Block,
    out: &mut [i32],
    m: usize,
    table: &mut [u32],
    room: &mut [u64],
    steps: &mut [u32],
    whole: &mut [i32],
    plan: Plan,
    engine: &mut E,
) -> Flushed
    requires closable { Closable list.now start end block.now out.old m table.old room.old }
    requires spared { Spared list.now steps.old }
    requires suits { Suits E.most_gates E.most_wires E.needs list.now block.now.wires whole.old }
    ensures { Closes (writer_of (view plan)) list.now start end out.old m out.new table.new result }
{
    let from = GATE_WIDTH * start;
    let to = GATE_WIDTH * end;
    let at = GATE_WIDTH * m;
    engine.flush(
        &list[from..to],
        &mut out[at..at + (to - from)],
        block,
        table,
        room,
        steps,
        whole,
        plan,
    )
}

// The gate at `i`, copied behind the m gates of the output.
pub fn copy_gate(list: &[i32], i: usize, out: &mut [i32], m: usize)
    requires { Copyable list.now i out.old m }
    ensures { made out.new (suc m) ≡ made out.old m ++ numbers (gate_at list.now i) }
{
    let from = GATE_WIDTH * i;
    let at = GATE_WIDTH * m;
    out[at..at + GATE_WIDTH].copy_from_slice(&list[from..from + GATE_WIDTH]);
}

// One piece: the block that starts at the next gate or, where none can, that gate copied.
fn piece<E: Engine>(
    list: &[i32],
    s: Tally,
    block: &mut Block,
    table: &mut [u32],
    out: &mut [i32],
    room: &mut [u64],
    steps: &mut [u32],
    whole: &mut [i32],
    plan: Plan,
    engine: &mut E,
) -> Tally
    requires ready { Ready (writer_of (view plan)) (view plan) list.now s table.old out.old room.old steps.old }
    requires suits { Suits E.most_gates E.most_wires E.needs list.now (view plan).qubits whole.old }
    ensures { Advances (writer_of (view plan)) (view plan) list.now s result out.new table.new }
{
    let most = heads_in(steps.len());
    let end = fold_run(
        list,
        s.at,
        &mut *block,
        &mut *table,
        &mut *room,
        plan,
        &mut steps[..most],
    );
    if end == s.at {
        copy_gate(list, end, out, s.gates);
        return s.copied();
    }
    let f = close(
        list, s.at, end, &*block, out, s.gates, table, room, steps, whole, plan, engine,
    );
    s.closed(end, f)
}

// The whole list, piece by piece, by any engine. `table` has a place for each wire of the circuit. What is left in `room`, in `steps`, in `whole` and
// behind the result is the caller's to clear.
pub fn scan_by<E: Engine>(
    list: &[i32],
    table: &mut [u32],
    out: &mut [i32],
    room: &mut [u64],
    steps: &mut [u32],
    whole: &mut [i32],
    plan: Plan,
    engine: &mut E,
) -> Tally
    requires scannable { Scannable (view plan) list.now out.old table.old room.old steps.old }
    requires suits { Suits E.most_gates E.most_wires E.needs list.now (view plan).qubits whole.old }
    ensures { Scans (writer_of (view plan)) (view plan) list.now out.new table.new result }
{
    let n = list.len() / GATE_WIDTH;
    let mut block = Block::new();
    let mut s = Tally::new();
    while s.at < n {
        s = piece(
            list,
            s,
            &mut block,
            &mut *table,
            &mut *out,
            &mut *room,
            &mut *steps,
            &mut *whole,
            plan,
            &mut *engine,
        );
    }
    s
}

// The same by the first engine, which needs no room beside its own.
pub fn scan(
    list: &[i32],
    table: &mut [u32],
    out: &mut [i32],
    room: &mut [u64],
    steps: &mut [u32],
    plan: Plan,
) -> Tally
    requires { Scannable (view plan) list.now out.old table.old room.old steps.old }
    ensures { Scans (writer_of (view plan)) (view plan) list.now out.new table.new result }
{
    let mut rooms = Rooms::new();
    scan_by(list, table, out, room, steps, &mut [], plan, &mut rooms)
}
