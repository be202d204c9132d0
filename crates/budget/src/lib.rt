// The budget of a resynthesis: CNOT and CZ counted, gates counted, and the block's own number of each. It goes by value; only `push` has it lent.
#![tactic(auto)]

ghost use Rattle.std.specs.Prelude.{◌≡◌};
ghost use Rattle.rules.specs.Budget as Rules;
ghost use Rattle.budget.specs.View.{view, counts, nothing_counted, counts_after, made, Low, Push};

#[derive(Clone, Copy, Debug, PartialEq, Eq)]
pub struct Budget {
    pub two: usize,
    pub all: usize,
    pub maxtwo: usize,
    pub maxall: usize,
}

// The counts, of which one passed its ceiling.
#[derive(Clone, Copy, Debug, PartialEq, Eq)]
pub struct Spent(pub Budget);

impl Budget {
    // Nothing counted yet, and these ceilings.
    pub fn new(two: usize, all: usize) -> Budget
        ensures { view result ≡ nothing_counted two all }
    {
        Budget {
            two: 0,
            all: 0,
            maxtwo: two,
            maxall: all,
        }
    }

    // One gate more, a CNOT or CZ (`pair`) or not. The pair is added as a number, so that nothing branches on it.
    pub fn counted(self, pair: bool) -> Budget
        requires { Low self }
        ensures { view result ≡ counts pair (view self) }
    {
        let two = (pair as usize) + self.two;
        let all = 1 + self.all;
        Budget { two, all, ..self }
    }

    // Both counts are within the ceilings.
    pub fn within(self) -> bool
        ensures { result ≡ Rules.within (view self) }
    {
        (self.two <= self.maxtwo) & (self.all <= self.maxall)
    }

    // One gate more in a lent budget; whether both counts are still within the ceilings.
    pub fn push(&mut self, pair: bool) -> bool
        requires { Low self.old }
        ensures { Push pair (view self.old) (view self.new) result }
    {
        *self = self.counted(pair);
        self.within()
    }

    // One gate more, where both counts are still within the ceilings; else the counts with it, of which one is past its ceiling.
    pub fn push_by(self, pair: bool) -> Result<Budget, Spent>
        requires { Low self }
        ensures { Push pair (view self) (counts_after result) (made result) }
    {
        let mut budget = self;
        if budget.push(pair) {
            Ok(budget)
        } else {
            Err(Spent(budget))
        }
    }
}
