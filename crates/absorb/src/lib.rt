// One gate folds into the block under construction: its wires join, and the rows, constants or terms take it.
#![tactic(auto)]

ghost use Rattle.std.specs.Prelude.{◌≡◌, ◌+◌, ◌^◌, ◌≤◌, ◌<◌, length};
ghost use Rattle.rules.specs.Meaning.{op, flip, phase, cnot, cz};
ghost use Rattle.rules.specs.Fold as Fold;
ghost use Rattle.gate.specs.Writing.{gate_of};
ghost use Rattle.terms.specs.Terms.{terms_of, Indexed};
ghost use Rattle.block.specs.View.{rows_at, block_at};
ghost use Rattle.block.specs.Steps.{Enterable, EnterableTwo, named_turn, turn_of};
ghost use Rattle.absorb.specs.Absorbing.{Moves, Absorbs, Absorbable};

use block::Block;
use gate::Gate;
use join::Wire;
use rules::{CODE_CNOT, CODE_CZ, CODE_RZ, CODE_X};

fn absorb_x(b: &mut Block, q: Wire, table: &mut [u32])
    requires { Enterable b.old q.0 table.old }
    ensures { Moves (Fold.rows_by (flip q.0) (Fold.entered (flip q.0) (rows_at b.old))) b.old b.new table.new }
{
    let at = b.enter(q, table);
    b.fold_x(at);
}

fn absorb_cnot(b: &mut Block, c: Wire, t: Wire, table: &mut [u32])
    requires { EnterableTwo b.old c.0 t.0 table.old }
    ensures { Moves (Fold.rows_by (cnot c.0 t.0) (Fold.entered (cnot c.0 t.0) (rows_at b.old))) b.old b.new table.new }
{
    let (control, target) = b.enter_two(c, t, table);
    b.fold_cnot(control, target);
}

fn absorb_turn(
    b: &mut Block,
    q: Wire,
    k: u8,
    table: &mut [u32],
    room: &mut [u64],
    heads: &mut [u32],
)
    requires enterable { Enterable b.old q.0 table.old }
    requires terms_in_bounds { b.old.terms < length (terms_of room.old) }
    requires terms_bound { (b.old.terms < 2 ^ 32) × Indexed heads.old room.old b.old.terms }
    ensures { Absorbs (Fold.absorb (phase k q.0) (block_at b.old room.old)) b.old b.new room.old table.new room.new heads.new }
{
    let at = b.enter(q, table);
    b.fold_turn(at, k, room, heads);
}

fn absorb_cz(
    b: &mut Block,
    c: Wire,
    t: Wire,
    table: &mut [u32],
    room: &mut [u64],
    heads: &mut [u32],
)
    requires enterable_two { EnterableTwo b.old c.0 t.0 table.old }
    requires terms_in_bounds { b.old.terms + 3 ≤ length (terms_of room.old) }
    requires terms_bound { (b.old.terms + 3 ≤ 2 ^ 32) × Indexed heads.old room.old b.old.terms }
    ensures { Absorbs (Fold.absorb (cz c.0 t.0) (block_at b.old room.old)) b.old b.new room.old table.new room.new heads.new }
{
    let (control, target) = b.enter_two(c, t, table);
    b.fold_cz(control, target, room, heads);
}

// The turn that a name stands for: t, tdg, s, sdg, z, by its place in a table. A chain of tests becomes a jump by the code, which random codes miss.
fn named(code: u32) -> u8
    ensures { result ≡ named_turn code }
{
    let turns = [0u8, 0, 1, 7, 2, 6, 4, 0];
    turns[(code % 8) as usize]
}

// The turn of a rotation: rz has its own.
pub fn turn_of(code: u32, k: u8) -> u8
    ensures { result ≡ turn_of code k }
{
    let fixed = named(code);
    if code == CODE_RZ { k % 8 } else { fixed }
}

// One gate of the fragment.
pub fn absorb(b: &mut Block, g: Gate, table: &mut [u32], room: &mut [u64], heads: &mut [u32])
    requires { Absorbable b.old g table.old room.old heads.old }
    ensures { Absorbs (Fold.absorb (op (gate_of g)) (block_at b.old room.old)) b.old b.new room.old table.new room.new heads.new }
{
    let first = Wire(g.first);
    let second = Wire(g.second);
    match g.code {
        CODE_X => absorb_x(b, first, table),
        CODE_CNOT => absorb_cnot(b, first, second, table),
        CODE_CZ => absorb_cz(b, first, second, table, room, heads),
        code => {
            let k = turn_of(code, g.turn);
            absorb_turn(b, first, k, table, room, heads)
        }
    }
}
