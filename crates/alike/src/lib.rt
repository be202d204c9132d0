// The entry point: may one list of fragment gates stand in for another? Both are checked, the first one whole before the second, then compared.
#![tactic(auto)]

ghost use Rattle.std.specs.Prelude.{◌≡◌, ◌+◌, ◌*◌, ◌≤◌, length};
ghost use Rattle.rules.specs.Limits.{width};
ghost use Rattle.gate.specs.Tests as Tests;
ghost use Rattle.gate.specs.Verdicts.{verdict_of};
ghost use Rattle.alike.specs.Asking.{passes_nine, asked_at, asked_from, asked};
ghost use Rattle.alike.specs.Answering as Asked;
ghost use Rattle.alike.specs.Answering.{told_or, Answers, number_of};

use acting::Verdict;
use gate::{Fault, Refusal};
use rules::{CODE_CZ, CODE_X, GATE_WIDTH, MAX_COLUMNS, MAX_GATES, MAX_WIRES};

// One of the two lists.
#[derive(Clone, Copy, Debug, PartialEq, Eq)]
pub enum Which {
    First,
    Second,
}

impl Which {
    // Its number, 1 or 2.
    pub fn number(self) -> u8
        ensures { result ≡ number_of self }
    {
        match self {
            Which::First => 1,
            Which::Second => 2,
        }
    }
}

// A refusal, and the list that it belongs to.
#[derive(Clone, Copy, Debug, PartialEq, Eq)]
pub struct Blame {
    pub list: Which,
    pub refusal: Refusal,
}

// Whether all tests up to 9 pass: a negative line stands behind them.
fn passes_nine(fault: Option<Fault>) -> bool
    ensures { result ≡ passes_nine (Tests.told fault).number }
{
    matches!(fault, None | Some(Fault::Line))
}

// What is wrong with the gate at a place: an opaque code stands between a wire twice and a negative line.
fn fault_at(list: &[i32], wires: usize, i: usize) -> Option<Fault>
    requires { width * i + width ≤ length list.now }
    ensures { Tests.told result ≡ asked_at list.now wires i }
{
    let code = gate::nat(list[GATE_WIDTH * i]);
    let fault = gate::fault_at(list, wires, 0, i);
    let opaque = !((CODE_X <= code) & (code <= CODE_CZ));
    if passes_nine(fault) & opaque {
        Some(Fault::Opaque)
    } else {
        fault
    }
}

// The first n gates, in list order.
fn check_gates(list: &[i32], wires: usize, n: usize) -> Result<(), Refusal>
    requires { width * n ≤ length list.now }
    ensures { verdict_of result ≡ asked_from list.now wires n 0 }
{
    for i in 0..n {
        if let Some(fault) = fault_at(list, wires, i) {
            return Err(Refusal { fault, place: i });
        }
    }
    Ok(())
}

// One list against the limits, then its gates.
fn check(list: &[i32], wires: usize) -> Result<(), Refusal>
    ensures { verdict_of result ≡ asked list.now wires }
{
    let n = list.len();
    let g = n / GATE_WIDTH;
    let tests = [
        (n % GATE_WIDTH != 0, Fault::Length),
        (MAX_GATES < g, Fault::Gates),
        (MAX_WIRES < wires, Fault::Limits),
        (MAX_COLUMNS < wires, Fault::CompareLimits),
    ];
    gate::check_whole(&tests)?;
    check_gates(list, wires, g)
}

// The same of one of the two lists, which is told.
fn check_of(which: Which, list: &[i32], wires: usize) -> Result<(), Blame>
    ensures { (rest : Asked.Answer) → told_or result rest ≡ Asked.after (number_of which) (asked list.now wires) rest }
{
    check(list, wires).map_err(|refusal| Blame {
        list: which,
        refusal,
    })
}

// Any two lists, any number of wires: refused, with the list that it belongs to; or the same, or the first that differs of linear map, flips and phase.
pub fn alike(first: &[i32], second: &[i32], wires: usize) -> Result<Verdict, Blame>
    ensures { Answers first.now second.now wires result }
{
    check_of(Which::First, first, wires)?;
    check_of(Which::Second, second, wires)?;
    Ok(compare::compare(first, second, wires))
}
