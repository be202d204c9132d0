// Whether the block under construction takes a gate: the qubit cap first, then the term cap.
#![tactic(auto)]

ghost use Rattle.std.specs.Prelude.{◌≡◌, cond, ◌+◌, ◌≤◌, ◌<◌, length, get_or, leb};
ghost use Rattle.rules.specs.Limits.{max_columns};
ghost use Rattle.rules.specs.Meaning.{op};
ghost use Rattle.rules.specs.Scan as Scan;
ghost use Rattle.parity.specs.View.{val};
ghost use Rattle.plan.specs.View.{view};
ghost use Rattle.gate.specs.Writing.{gate_of};
ghost use Rattle.rows.specs.Rows.{rows_of};
ghost use Rattle.block.specs.View.{block_at, Rowed};
ghost use Rattle.taking.specs.Asking.{new, parity_at, last_wire, Held, Askable};

use block::Block;
use gate::Gate;
use join::Wire;
use parity::Parity;
use plan::Plan;
use rules::{CODE_CNOT, CODE_CZ, CODE_X};

// 1 for a wire that has not joined, else 0.
fn count_new(table: &[u32], q: Wire) -> usize
    requires { q.0 < length table.now }
    ensures { (result ≡ new (get_or table.now q.0 0)) × (result ≤ 1) }
{
    (!join::joined(table, q)) as usize
}

// Of a gate on two wires the second, else the first once more, so that no test of a gate branches on how many it has.
fn last_wire(g: Gate) -> Wire
    ensures { result.0 ≡ last_wire g }
{
    if CODE_CNOT <= g.code {
        Wire(g.second)
    } else {
        Wire(g.first)
    }
}

// Within the qubit cap once the wires have joined: c, and t too where there are two.
fn fits(b: &Block, c: Wire, t: Wire, two: bool, table: &[u32], cap: usize) -> bool
    requires { (b.now.wires ≤ max_columns) × ((c.0 < length table.now) × (t.0 < length table.now)) }
    ensures { result ≡ leb (b.now.wires + new (get_or table.now c.0 0) + cond two (new (get_or table.now t.0 0)) 0) cap }
{
    let more = two & !join::joined(table, t);
    b.wires as usize + count_new(table, c) + more as usize <= cap
}

// The parity that a wire holds once it has joined.
fn parity_of(b: &Block, q: Wire, table: &[u32]) -> Parity
    requires { Held b.now q.0 table.now }
    ensures { val result ≡ parity_at b.now.wires (rows_of b.now.rows) (get_or table.now q.0 0) }
{
    match join::place_of(table, q) {
        Some(at) => b.rows[at.0 as usize],
        None => Parity::single(b.wires),
    }
}

// Whether a gate can go on the block. The table of terms is searched only for a rotation, and only if it is full.
pub fn takes(b: &Block, g: Gate, table: &[u32], room: &[u64], plan: Plan, heads: &[u32]) -> bool
    requires { Askable b.now g table.now room.now plan.qubits heads.now }
    ensures { Rowed b.now table.now → result ≡ Scan.takes (view plan) (op (gate_of g)) (block_at b.now room.now) }
{
    let code = g.code;
    let first = Wire(g.first);
    let two = CODE_CNOT <= code;
    if (code < CODE_X) | (CODE_CZ < code) {
        return false;
    }
    if !fits(b, first, last_wire(g), two, table, plan.qubits) {
        return false;
    }
    if two | ((code == CODE_X) | (b.terms < plan.terms)) {
        return true;
    }
    let p = parity_of(b, first, table);
    terms::find(room, b.terms, p, heads).is_some()
}
