// Gates written at a block's own place in the output, each counted by the budget. All that is emitted goes through here.
#![tactic(auto)]

ghost use Rattle.std.specs.Prelude.{◌≡◌, [], ◌∷◌, ◌<◌, ◌^◌, eqb, leb, ◌&&◌, ◌||◌};
ghost use Rattle.rules.specs.Gate.{gate1, gate2, code_x, code_t, code_z, code_cnot};
ghost use Rattle.rules.specs.Counts.{is_two};
ghost use Rattle.rules.specs.Synth as Synth;
ghost use Rattle.budget.specs.View.{view, counts_after, made};
ghost use Rattle.gate.specs.Writing.{gate_of, Small};
ghost use Rattle.emit.specs.Emitted.{Ready, Emits};
ghost use Rattle.emit.specs.Turns as Turns;

use budget::{Budget, Spent};
use gate::Gate;
use join::Wire;
use rules::{CODE_CNOT, CODE_CZ, CODE_S, CODE_SDG, CODE_T, CODE_TDG, CODE_X, CODE_Z};

// A gate on one wire, with no turn.
pub fn one_wire(code: u32, q: Wire) -> Gate
    ensures { gate_of result ≡ gate1 code q.0 }
{
    Gate {
        code,
        first: q.0,
        second: 0,
        third: 0,
        turn: 0,
    }
}

pub fn cnot(control: Wire, target: Wire) -> Gate
    ensures { gate_of result ≡ gate2 code_cnot control.0 target.0 }
{
    Gate {
        code: CODE_CNOT,
        first: control.0,
        second: target.0,
        third: 0,
        turn: 0,
    }
}

// CNOT or CZ.
fn is_two(code: u32) -> bool
    ensures { result ≡ is_two code }
{
    (code == CODE_CNOT) | (code == CODE_CZ)
}

// One gate: counted, and written where both counts are still within. Its place is the number of gates before it.
pub fn emit_gate(out: &mut [i32], b: Budget, g: Gate) -> Result<Budget, Spent>
    requires ready { Ready out.old (view b) }
    requires small { Small g }
    ensures { Emits (gate_of g ∷ []) out.old (view b) out.new (counts_after result) (made result) }
{
    let next = b.push_by(is_two(g.code))?;
    let at = b.all;
    gate::write(out, at, g);
    Ok(next)
}

// A gate on one wire.
fn emit_one(out: &mut [i32], b: Budget, code: u32, q: Wire) -> Result<Budget, Spent>
    requires ready { Ready out.old (view b) }
    requires code_bound { (code < 2 ^ 31) × (q.0 < 2 ^ 31) }
    ensures { Emits (gate1 code q.0 ∷ []) out.old (view b) out.new (counts_after result) (made result) }
{
    emit_gate(out, b, one_wire(code, q))
}

pub fn emit_x(out: &mut [i32], b: Budget, q: Wire) -> Result<Budget, Spent>
    requires ready { Ready out.old (view b) }
    requires q_bound { q.0 < 2 ^ 31 }
    ensures { Emits (gate1 code_x q.0 ∷ []) out.old (view b) out.new (counts_after result) (made result) }
{
    emit_one(out, b, CODE_X, q)
}

pub fn emit_cnot(out: &mut [i32], b: Budget, control: Wire, target: Wire) -> Result<Budget, Spent>
    requires ready { Ready out.old (view b) }
    requires control_bound { (control.0 < 2 ^ 31) × (target.0 < 2 ^ 31) }
    ensures { Emits (gate2 code_cnot control.0 target.0 ∷ []) out.old (view b) out.new (counts_after result) (made result) }
{
    emit_gate(out, b, cnot(control, target))
}

// The first gate of a turn from 1 to 7: t, s, s, z, z, sdg, tdg.
pub fn lead(k: u8) -> u32
    ensures { result ≡ Turns.lead k }
{
    match k {
        1 => CODE_T,
        0..=3 => CODE_S,
        4..=5 => CODE_Z,
        6 => CODE_SDG,
        _ => CODE_TDG,
    }
}

// The rotation by a turn from 0 to 7: nothing; t; s; s then t; z; z then t; sdg; tdg.
pub fn emit_rotation(out: &mut [i32], b: Budget, q: Wire, k: u8) -> Result<Budget, Spent>
    requires ready { Ready out.old (view b) }
    requires q_bound { (q.0 < 2 ^ 31) × (k < 8) }
    ensures { Emits (Synth.rotation k q.0) out.old (view b) out.new (counts_after result) (made result) }
{
    if k == 0 {
        return Ok(b);
    }
    let first = emit_one(&mut *out, b, lead(k), q)?;
    if (k == 3) | (k == 5) {
        emit_one(out, first, CODE_T, q)
    } else {
        Ok(first)
    }
}
