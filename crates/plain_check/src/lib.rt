// What the plain engine takes: the tests of the first engine, limits of its own straight after 3, and one room more.
#![tactic(auto)]

ghost use Rattle.std.specs.Prelude.{◌≡◌};
ghost use Rattle.gate.specs.Verdicts.{verdict_of};
ghost use Rattle.plain_check.specs.Refusing.{plain_verdict};

use gate::{Fault, Refusal};
use rules::{
    GATE_TERMS, GATE_WIDTH, MAX_BITS, MAX_COLUMNS, MAX_GATES, MAX_WIRES, PLAIN_COLUMNS,
    PLAIN_GATES, STEP_WIDTH, TERM_WIDTH, WHOLE_GATES,
};

// The list against the limits and the rooms, which are given by how many numbers they hold, then its gates. `qubits` is the cap as it is clamped.
pub fn check(
    list: &[i32],
    wires: usize,
    bits: usize,
    qubits: usize,
    out: usize,
    terms: usize,
    steps: usize,
    whole: usize,
) -> Result<(), Refusal>
    ensures { verdict_of result ≡ plain_verdict list.now wires bits qubits out terms steps whole }
{
    let n = list.len();
    let g = n / GATE_WIDTH;
    let lent = (terms / TERM_WIDTH < GATE_TERMS * g) | (steps / STEP_WIDTH < g + MAX_COLUMNS);
    let tests = [
        (n % GATE_WIDTH != 0, Fault::Length),
        (MAX_GATES < g, Fault::Gates),
        ((MAX_WIRES < wires) | (MAX_BITS < bits), Fault::Limits),
        (
            (PLAIN_GATES < g) | (PLAIN_COLUMNS < qubits),
            Fault::PlainLimits,
        ),
        (out < n, Fault::OutRoom),
        (lent | (whole < GATE_WIDTH * WHOLE_GATES), Fault::WorkRooms),
    ];
    gate::check_whole(&tests)?;
    gate::check_gates(list, wires, bits, g)
}
