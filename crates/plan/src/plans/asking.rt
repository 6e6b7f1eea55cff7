//! Calls on a plan as values.
ghost use Rattle.std.specs.Prelude.{◌≡◌};
ghost use Rattle.netlist.specs.Meaning.{homes};
ghost use Rattle.plan.specs.Reckoning.{call_of, told as told_of};
ghost use Rattle.plan.specs.PlanCalls.{of_change, of_split, refusal_on, CallOn, CallLeft};

use crate::calls::{Answer, Asked};
use crate::plans::Plan;
use cut::found::FoundSplit;
use netlist::Netlist;
use price::Price;
use refusal::Fault;

/// The answer of a change or a take back.
impl<P> From<Result<(), Fault>> for Answer<P> {
    ghost from_gives = { λ told answer. answer ≡ of_change told };

    fn from(told: Result<(), Fault>) -> Answer<P> {
        match told {
            Ok(()) => Answer::Done,
            Err(fault) => Answer::Refused(fault),
        }
    }
}

/// The answer of a split.
impl<P> From<Result<FoundSplit<P>, Fault>> for Answer<P> {
    ghost from_gives = { λ told answer. answer ≡ of_split told };

    fn from(told: Result<FoundSplit<P>, Fault>) -> Answer<P> {
        match told {
            Ok(found) => Answer::Found(found),
            Err(fault) => Answer::Refused(fault),
        }
    }
}

/// The answer of a look.
impl<P> From<Option<FoundSplit<P>>> for Answer<P> {
    ghost from_gives = { λ shown answer. answer ≡ told_of shown };

    fn from(shown: Option<FoundSplit<P>>) -> Answer<P> {
        match shown {
            Some(found) => Answer::Found(found),
            None => Answer::Absent,
        }
    }
}

impl<N: Netlist> Plan<N> {
    /// Makes a call that is given as a value; a split is handed the row of cells that it brings.
    pub fn ask(&mut self, call: &mut Asked<N::Price>) -> Answer<N::Price>
        ensures call { CallOn N.Price.Price.kind N.Netlist.meaning (call_of call.old) self.old self.new result }
        ensures row { CallLeft N.Price.Price.kind (refusal_on N.Netlist.meaning self.old (call_of call.old))
            (homes (N.Netlist.meaning self.old.below)) call.old call.new }
    {
        match call {
            Asked::Strap(a, b) => Answer::from(self.strap(*a, *b)),
            Asked::Mute(net) => Answer::from(self.mute(*net)),
            Asked::TakeBack => Answer::from(self.take_back()),
            Asked::Split(cells) => Answer::from(self.split(cells)),
            Asked::Look => Answer::from(self.look()),
        }
    }
}
