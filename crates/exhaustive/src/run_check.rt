//! One list of calls run on a new plan by the product, each answer compared with what is reckoned here.
use crate::calls::Call;
use crate::cells::are_cleared;
use crate::drawing::Tries;
use crate::layer_check::Pile;
use crate::order_check::OrderRows;
use crate::reckoning::Reckoning;
use crate::tables::Tables;
use crate::trial::Trial;
use netlist::Netlist;
use plan::calls::{Answer, Asked};
use price::Price;
use refusal::Fault;
use runs::ordering::run_and_order;
use std::alloc::{AllocError, Global};

// A list of calls, as the product is asked and leaves them, and the room for its answers.
#[derive(Drop)]
pub(crate) struct Run<P> {
    calls: Vec<Call>,
    asked: Vec<Asked<P>>,
    pub(crate) answers: Vec<Answer<P>>,
}

// In what the product and the rules agree over one list.
#[derive(Clone, Copy)]
pub(crate) struct RunAgreement {
    // Whether the layers below the plan refuse alike; absent where there are none.
    pub(crate) layers: Option<bool>,
    // How many calls the list has.
    pub(crate) calls: usize,
    // Whether as many are told to be made as there is room for answers.
    pub(crate) count: bool,
    // How many answers agree.
    pub(crate) answers: usize,
    // How many calls stay as they were, since there is no room for their answers.
    pub(crate) left: usize,
    pub(crate) order: bool,
}

impl RunAgreement {
    pub(crate) fn is_full(&self) -> bool {
        self.layers != Some(false)
            && self.count
            && self.answers.saturating_add(self.left) == self.calls
            && self.order
    }
}

impl<P: Price> Run<P> {
    // The calls, not yet made, with room for so many answers.
    pub(crate) fn of(heap: Global, calls: Vec<Call>, room: usize) -> Result<Run<P>, AllocError> {
        let mut asked = Vec::new(heap);
        for call in calls.iter() {
            asked.push(call.asked(heap)?)?;
        }
        Ok(Run {
            calls,
            asked,
            answers: vec![in heap; answer_before(); room]?,
        })
    }

    // Makes the calls on a new plan over the trial's netlist, or over that netlist with straps and mutes tried on it first.
    // Those are no changes of the plan: it does not count them, and takes none of them back.
    // In the trial what the rules accept stands afterwards.
    pub(crate) fn compare(
        &mut self,
        heap: Global,
        trial: &mut Trial<P>,
        below: Option<&Tries>,
    ) -> anyhow::Result<RunAgreement> {
        let tables = Tables::of(heap, trial)?;
        match below {
            None => self.compare_over(heap, trial, &tables.load()?, None),
            Some(tries) => {
                let pile = Pile::over(&tables, trial, tries)?;
                self.compare_over(heap, trial, &pile.top, Some(pile.agrees))
            }
        }
    }

    // Makes the calls over a netlist on which the trial's straps and mutes stand.
    fn compare_over<N: Netlist<Price = P>>(
        &mut self,
        heap: Global,
        trial: &mut Trial<P>,
        netlist: &N,
        layers: Option<bool>,
    ) -> anyhow::Result<RunAgreement> {
        let mut rows = OrderRows::before(heap, trial.modules)?;
        let whole = run_and_order(
            netlist,
            self.asked.as_mut_slice(),
            self.answers.as_mut_slice(),
            rows.cells.as_mut_slice(),
            rows.bytes.as_mut_slice(),
        );
        Ok(RunAgreement {
            layers,
            calls: self.calls.len(),
            count: whole.count == self.calls.len().min(self.answers.len()),
            answers: self.agreeing(heap, trial)?,
            left: self.left(),
            order: rows.agree(heap, netlist, whole.ordered)?,
        })
    }

    // How many of the answers are as reckoned, with the cells left as they should be.
    fn agreeing(&self, heap: Global, trial: &mut Trial<P>) -> Result<usize, AllocError> {
        let modules = trial.modules;
        let mut reckoning = Reckoning::over(heap, trial);
        let mut agreeing = 0usize;
        let calls = self.calls.iter().zip(self.asked.iter());
        for ((call, asked), answer) in calls.zip(self.answers.iter()) {
            let allowed = reckoning.allows(*call, *answer)?;
            if allowed && are_cells_left(modules, asked, *answer) {
                agreeing = agreeing.saturating_add(1);
            }
        }
        Ok(agreeing)
    }

    // How many of the calls past the room for answers are as they were.
    fn left(&self) -> usize {
        let mut left = 0usize;
        let calls = self.calls.iter().zip(self.asked.iter());
        for (call, asked) in calls.skip(self.answers.len()) {
            if is_untouched(*call, asked) {
                left = left.saturating_add(1);
            }
        }
        left
    }
}

// What stands in the room for an answer before the run: a refusal that no call on a plan tells.
fn answer_before<P>() -> Answer<P> {
    Answer::Refused(Fault::LineNotUnderstood)
}

// Whether a split leaves its cells as it should.
fn are_cells_left<P: Price>(modules: usize, asked: &Asked<P>, answer: Answer<P>) -> bool {
    match (asked, answer) {
        (Asked::Split(cells), Answer::Found(_)) => are_cleared(cells.as_slice(), modules),
        (Asked::Split(cells), _) => are_cleared(cells.as_slice(), 0),
        _ => true,
    }
}

// Whether a call is as it was handed in.
fn is_untouched<P: Price>(call: Call, asked: &Asked<P>) -> bool {
    match (call, asked) {
        (Call::Strap(a, b), Asked::Strap(left_a, left_b)) => a == *left_a && b == *left_b,
        (Call::Mute(net), Asked::Mute(left)) => net == *left,
        (Call::Split(count), Asked::Split(cells)) => cells.len() == count
            && are_cleared(cells.as_slice(), 0),
        (Call::TakeBack, Asked::TakeBack) | (Call::Look, Asked::Look) => true,
        _ => false,
    }
}
