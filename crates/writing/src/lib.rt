// Gates written one behind another in a room of their own, to the end: nothing is counted against a ceiling, and no line is given yet.
// Stays: beside `emit` with functions of its own, since the plain engine exists so that nothing can stop it; over one sink each would have an error that never comes.
#![tactic(auto)]

ghost use Rattle.std.specs.Prelude.{◌≡◌, [], ◌∷◌, ◌<◌, ◌^◌, length};
ghost use Rattle.rules.specs.Gate.{gate1, gate2, code_x, code_cnot};
ghost use Rattle.rules.specs.Synth as Synth;
ghost use Rattle.gate.specs.Writing.{gate_of, Small};
ghost use Rattle.writing.specs.Written.{Wrote, Fits};

use gate::Gate;
use join::Wire;
use rules::{CODE_T, CODE_X};

// One gate behind the k that stand there; how many there are then.
fn write_gate(whole: &mut [i32], k: usize, g: Gate) -> usize
    requires fits { Fits whole.old k 1 }
    requires small { Small g }
    ensures { Wrote (gate_of g ∷ []) whole.old k whole.new result }
{
    gate::write(whole, k, g);
    k + 1
}

// A gate on one wire.
fn write_one(whole: &mut [i32], k: usize, code: u32, q: Wire) -> usize
    requires fits { Fits whole.old k 1 }
    requires code_bound { (code < 2 ^ 31) × (q.0 < 2 ^ 31) }
    ensures { Wrote (gate1 code q.0 ∷ []) whole.old k whole.new result }
{
    write_gate(whole, k, emit::one_wire(code, q))
}

pub fn write_x(whole: &mut [i32], k: usize, q: Wire) -> usize
    requires fits { Fits whole.old k 1 }
    requires q_bound { q.0 < 2 ^ 31 }
    ensures { Wrote (gate1 code_x q.0 ∷ []) whole.old k whole.new result }
{
    write_one(whole, k, CODE_X, q)
}

pub fn write_cnot(whole: &mut [i32], k: usize, control: Wire, target: Wire) -> usize
    requires fits { Fits whole.old k 1 }
    requires control_bound { (control.0 < 2 ^ 31) × (target.0 < 2 ^ 31) }
    ensures { Wrote (gate2 code_cnot control.0 target.0 ∷ []) whole.old k whole.new result }
{
    write_gate(whole, k, emit::cnot(control, target))
}

// The rotation by a turn from 0 to 7: nothing; t; s; s then t; z; z then t; sdg; tdg. Its first gate is by the table that the first engine has.
pub fn write_rotation(whole: &mut [i32], k: usize, q: Wire, turn: u8) -> usize
    requires fits { Fits whole.old k (length (Synth.rotation turn q.0)) }
    requires q_bound { (q.0 < 2 ^ 31) × (turn < 8) }
    ensures { Wrote (Synth.rotation turn q.0) whole.old k whole.new result }
{
    if turn == 0 {
        return k;
    }
    let first = write_one(&mut *whole, k, emit::lead(turn), q);
    if (turn == 3) | (turn == 5) {
        write_one(&mut *whole, first, CODE_T, q)
    } else {
        first
    }
}
