// Do two runs of fragment gates act alike? The crate carries the definition of the answer and its theorems; of code, the answer and its number.
#![tactic(auto)]

ghost use Rattle.std.specs.Prelude.{◌≡◌};
ghost use Rattle.acting.specs.Alike.{number_of};
ghost use Rattle.acting.specs.Answer.{verdict_of};

// The runs are the same, or the first that differs of linear map, flips and phase.
#[derive(Clone, Copy, PartialEq, Eq)]
pub enum Verdict {
    Same,
    Map,
    Flips,
    Phase,
}

// The answer as a caller in another language gets it.
impl From<Verdict> for u64 {
    ghost from_gives = { λ v r. r ≡ number_of (verdict_of v) };

    fn from(v: Verdict) -> u64 {
        match v {
            Verdict::Same => 0,
            Verdict::Map => 1,
            Verdict::Flips => 2,
            Verdict::Phase => 3,
        }
    }
}
