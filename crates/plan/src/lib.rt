// What a pass goes by, in one value: made once, and handed down to all that a cap or a later mode concerns.
#![tactic(auto)]

ghost use Rattle.std.specs.Prelude.{◌≡◌};
ghost use Rattle.rules.specs.Plan.{plan_of};
ghost use Rattle.plan.specs.View.{view};

use rules::MAX_COLUMNS;

// The most wires and the most terms that a block may hold.
#[derive(Clone, Copy)]
pub struct Plan {
    pub qubits: usize,
    pub terms: usize,
}

// The plan of any two caps: the qubit cap is clamped to 1..128, the term cap is raised to at least 1.
pub fn of_caps(qubit_cap: usize, term_cap: usize) -> Plan
    ensures { view result ≡ plan_of qubit_cap term_cap }
{
    Plan {
        qubits: qubit_cap.clamp(1, MAX_COLUMNS),
        terms: term_cap.max(1),
    }
}
