//! The calls that change a plan or what it shows.
ghost use Rattle.std.specs.Prelude.{◌≡◌, [], length};
ghost use Rattle.netlist.specs.Meaning.{homes};
ghost use Rattle.plan.specs.Reckoning.{making, strap as strap_call, mute as mute_call, take_back, split as split_call};
ghost use Rattle.plan.specs.PlanCalls.{of_change, of_split, LedTo, refusal_on, CallOn, cells_left};

use crate::plans::Plan;
use arrayvec::ArrayVec;
use cut::found::FoundSplit;
use netlist::Netlist;
use price::Price;
use refusal::Fault;
use standing::change::Change;

impl<N: Netlist> Plan<N> {
    /// A new plan: no change stands and nothing is shown.
    pub fn over(below: N) -> Self
        ensures below { result.below ≡ below }
        ensures new { LedTo N.Price.Price.kind N.Netlist.meaning [] [] result }
    {
        Plan {
            below,
            changes: ArrayVec::new(),
            shown: None,
        }
    }

    /// Unites the groups of home modules `a` and `b`; then nothing is shown.
    /// Refused: 11 where one of them is not there, then 12 where they are in one group, then 15 where 64 changes stand.
    pub fn strap(&mut self, a: usize, b: usize) -> Result<(), Fault>
        ensures { CallOn N.Price.Price.kind N.Netlist.meaning (strap_call a b) self.old self.new (of_change result) }
    {
        self.make_change(Change::Strapped(a, b))
    }

    /// Mutes a net too; then nothing is shown.
    /// Refused: 13 where the net is not there, then 14 where it is muted, then 15 where 64 changes stand.
    pub fn mute(&mut self, net: usize) -> Result<(), Fault>
        ensures { CallOn N.Price.Price.kind N.Netlist.meaning (mute_call net) self.old self.new (of_change result) }
    {
        self.make_change(Change::Muted(net))
    }

    // Makes a change, where it is not refused; then nothing is shown.
    fn make_change(&mut self, change: Change) -> Result<(), Fault>
        ensures { CallOn N.Price.Price.kind N.Netlist.meaning (making change) self.old self.new (of_change result) }
    {
        self.check_change(change)?;
        self.add(change);
        Ok(())
    }

    /// Takes the latest change back; then nothing is shown. Refused by 16 where no change stands.
    pub fn take_back(&mut self) -> Result<(), Fault>
        ensures { CallOn N.Price.Price.kind N.Netlist.meaning take_back self.old self.new (of_change result) }
    {
        self.changes.pop().ok_or(Fault::NothingToTakeBack)?;
        self.shown = None;
        Ok(())
    }

    /// Finds the cheapest lawful split where these changes stand, and shows it. Leaves a zero cell for each home module, and later cells as they were.
    /// Refused: 10 where there are fewer cells than home modules, then 17 where fewer than two groups are left; the cells stay.
    pub fn split(&mut self, cells: &mut [N::Price]) -> Result<FoundSplit<N::Price>, Fault>
        ensures call { CallOn N.Price.Price.kind N.Netlist.meaning (split_call (length cells.old)) self.old self.new (of_split result) }
        ensures cells { cells.new ≡ cells_left N.Price.Price.kind (refusal_on N.Netlist.meaning self.old (split_call (length cells.old)))
            (homes (N.Netlist.meaning self.old.below)) cells.old }
    {
        let found = self.find(cells)?;
        self.shown = Some(found);
        Ok(found)
    }
}
