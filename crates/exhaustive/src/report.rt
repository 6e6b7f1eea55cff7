//! What is printed: a line for each batch of trials, and each trial that disagrees.
use crate::kinds::Kind;
use crate::trial::Trial;
use anyhow::bail;
use plan::calls::Answer;
use price::Price;
use price::values::Wires;
use std::alloc::{AllocError, Global};
use std::collections::BTreeSet;

// How many trials disagree so far, and by which numbers calls of runs were refused.
#[derive(Drop)]
pub(crate) struct Report<'a> {
    rt: &'a HostRuntime,
    disagreements: usize,
    refusals: BTreeSet<u8>,
}

impl<'a> Report<'a> {
    pub(crate) fn new(rt: &'a HostRuntime) -> Report<'a> {
        Report {
            rt,
            disagreements: 0,
            refusals: BTreeSet::new(rt.alloc()),
        }
    }

    // The memory that trials are made in.
    pub(crate) fn heap(&self) -> Global {
        self.rt.alloc()
    }

    // The first line: the order of the five-module netlist in wires, as the product answers it.
    pub(crate) fn show_order(&self, bytes: &[u8], price: Wires) -> anyhow::Result<()> {
        print!(self.rt; "five modules: order")?;
        for module in bytes {
            print!(self.rt; " {module}")?;
        }
        let count = price.count;
        println!(self.rt; ", price {count}")?;
        Ok(())
    }

    // The line of a batch: how many trials it has, and how many of what they ask agree.
    pub(crate) fn show_counts(
        &self,
        batch: &str,
        kind: &str,
        counts: &[(usize, &str)],
    ) -> anyhow::Result<()> {
        print!(self.rt; "{batch} in {kind}")?;
        let mut mark = ":";
        for (count, what) in counts {
            print!(self.rt; "{mark} {count} {what}")?;
            mark = ",";
        }
        println!(self.rt; "")?;
        Ok(())
    }

    // Counts and tells a trial that disagrees: its batch and number, by which it is drawn again, and its netlist.
    pub(crate) fn show_disagreement<K: Kind>(
        &mut self,
        batch: &str,
        case: u32,
        trial: &Trial<K>,
    ) -> anyhow::Result<()> {
        self.disagreements = self.disagreements.saturating_add(1);
        let kind = K::NAME;
        let modules = trial.modules;
        println!(self.rt; "{batch} in {kind}, case {case} disagrees: {modules} modules")?;
        for net in trial.nets.iter() {
            let pins = &net.pins;
            let word = net.price.print_word();
            println!(self.rt; "    net {pins:?}, price {word:016x}")?;
        }
        let straps = &trial.straps;
        let muted = &trial.muted;
        println!(self.rt; "    straps {straps:?}, muted {muted:?}")?;
        Ok(())
    }

    // Keeps the numbers by which calls of a run were refused.
    pub(crate) fn keep_refusals<P: Price>(
        &mut self,
        answers: &[Answer<P>],
    ) -> Result<(), AllocError> {
        for answer in answers {
            if let Answer::Refused(fault) = answer {
                self.refusals.insert(fault.number())?;
            }
        }
        Ok(())
    }

    // The last lines; an error where some trial disagrees.
    pub(crate) fn finish(&self) -> anyhow::Result<()> {
        self.show_refusals()?;
        let disagreements = self.disagreements;
        if disagreements > 0 {
            println!(self.rt; "{disagreements} disagree")?;
            bail!("the product and the rules disagree");
        }
        println!(self.rt; "all agree")?;
        Ok(())
    }

    fn show_refusals(&self) -> anyhow::Result<()> {
        print!(self.rt; "refusals told in runs:")?;
        for number in self.refusals.iter() {
            print!(self.rt; " {number}")?;
        }
        println!(self.rt; "")?;
        Ok(())
    }
}
