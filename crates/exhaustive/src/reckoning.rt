//! What a plan answers to a list of calls, reckoned from the calls alone.
use crate::calls::Call;
use crate::trial::{Trial, are_equal};
use cut::found::FoundSplit;
use plan::calls::Answer;
use price::Price;
use std::alloc::{AllocError, Global};

// How many changes a plan holds at most.
const CHANGES_MOST: usize = 64;

// A change that was accepted.
#[derive(Clone, Copy)]
enum Change {
    Strap(usize, usize),
    Mute(usize),
}

// The trial with what stands, first what stood below the plan; the accepted changes in turn; and the split that is shown.
#[derive(Drop)]
pub(crate) struct Reckoning<'a, P> {
    trial: &'a mut Trial<P>,
    changes: Vec<Change>,
    shown: Option<FoundSplit<P>>,
}

impl<'a, P: Price> Reckoning<'a, P> {
    // A new plan over what stands in the trial, which holds no change yet.
    pub(crate) fn over(heap: Global, trial: &'a mut Trial<P>) -> Self {
        Reckoning {
            trial,
            changes: Vec::new(heap),
            shown: None,
        }
    }

    // Whether the call may be answered so. Afterwards what the rules accept stands.
    pub(crate) fn allows(&mut self, call: Call, answer: Answer<P>) -> Result<bool, AllocError> {
        match call {
            Call::Strap(a, b) => self.allows_change(Change::Strap(a, b), answer),
            Call::Mute(net) => self.allows_change(Change::Mute(net), answer),
            Call::TakeBack => Ok(self.allows_take_back(answer)),
            Call::Split(cells) => Ok(self.allows_split(cells, answer)),
            Call::Look => Ok(self.allows_look(answer)),
        }
    }

    fn allows_change(&mut self, change: Change, answer: Answer<P>) -> Result<bool, AllocError> {
        let refusal = self.refusal(change);
        if refusal.is_none() {
            self.make(change)?;
        }
        Ok(is_told(answer, refusal))
    }

    // The number by which a change is refused: by the netlist, then 15 where the plan is full.
    fn refusal(&self, change: Change) -> Option<u8> {
        let by_netlist = match change {
            Change::Strap(a, b) => self.trial.strap_refusal(a, b),
            Change::Mute(net) => self.trial.mute_refusal(net),
        };
        by_netlist.or((self.changes.len() >= CHANGES_MOST).then_some(15))
    }

    fn make(&mut self, change: Change) -> Result<(), AllocError> {
        match change {
            Change::Strap(a, b) => self.trial.straps.push((a, b))?,
            Change::Mute(net) => self.trial.muted.push(net)?,
        }
        self.changes.push(change)?;
        self.shown = None;
        Ok(())
    }

    fn allows_take_back(&mut self, answer: Answer<P>) -> bool {
        match self.changes.pop() {
            Some(Change::Strap(..)) => {
                self.trial.straps.pop();
            }
            Some(Change::Mute(_)) => {
                self.trial.muted.pop();
            }
            None => return is_told(answer, Some(16)),
        }
        self.shown = None;
        is_told(answer, None)
    }

    // Of a split: 10 where the cells are too few, else as the rule of splits says of what stands.
    fn allows_split(&mut self, cells: usize, answer: Answer<P>) -> bool {
        if cells < self.trial.modules {
            return is_told(answer, Some(10));
        }
        match answer {
            Answer::Found(found) => {
                self.shown = Some(found);
                self.trial.allows(Ok(found))
            }
            Answer::Refused(fault) => self.trial.allows(Err(fault)),
            Answer::Done | Answer::Absent => false,
        }
    }

    fn allows_look(&self, answer: Answer<P>) -> bool {
        match (self.shown, answer) {
            (None, Answer::Absent) => true,
            (Some(shown), Answer::Found(found)) => shown.sides == found.sides
                && are_equal(shown.price, found.price),
            _ => false,
        }
    }
}

// Whether a change or take back is refused by this number, or done where there is none.
fn is_told<P: Price>(answer: Answer<P>, refusal: Option<u8>) -> bool {
    match answer {
        Answer::Done => refusal.is_none(),
        Answer::Refused(fault) => refusal == Some(fault.number()),
        Answer::Found(_) | Answer::Absent => false,
    }
}
