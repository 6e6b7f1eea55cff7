//! Whether a change is refused, a change added, and the split found where the changes stand.
ghost use Rattle.std.specs.Prelude.{◌≡◌, ◌<◌, ◌∷◌, None};
ghost use Rattle.arrayvec.specs.ArrayVec.{array_vec_len};
ghost use Rattle.refusal.specs.Checks.{checked};
ghost use Rattle.partition.specs.Splits.{SplitCall};
ghost use Rattle.plan.specs.Reckoning.{making, full_fault};
ghost use Rattle.plan.specs.Plans.{standing_changes, plan_meaning};
ghost use Rattle.plan.specs.PlanCalls.{refusal_on};

use crate::plans::Plan;
use cut::found::FoundSplit;
use netlist::Netlist;
use partition::splitting;
use price::Price;
use refusal::Fault;
use standing::apply_change;
use standing::change::Change;

impl<N: Netlist> Plan<N> {
    // Whether a change is refused.
    pub(crate) fn check_change(&self, change: Change) -> Result<(), Fault>
        ensures { result ≡ checked (refusal_on N.Netlist.meaning self.now (making change)) }
    {
        apply_change(&mut self.standing(), change)?;
        self.check_room()
    }

    // Whether one change more finds room.
    fn check_room(&self) -> Result<(), Fault>
        ensures { result ≡ checked (full_fault (standing_changes self.now)) }
    {
        if self.changes.is_full() {
            return Err(Fault::PlanFull);
        }
        Ok(())
    }

    // Adds a change, and shows nothing.
    pub(crate) fn add(&mut self, change: Change)
        requires { array_vec_len self.old.changes < 64 }
        ensures stands { standing_changes self.new ≡ change ∷ standing_changes self.old }
        ensures shows { self.new.shown ≡ None }
        ensures below { self.new.below ≡ self.old.below }
    {
        self.changes.push(change);
        self.shown = None;
    }

    // The cheapest lawful split where these changes stand.
    pub(crate) fn find(&self, cells: &mut [N::Price]) -> Result<FoundSplit<N::Price>, Fault>
        ensures { SplitCall N.Price.Price.kind (plan_meaning N.Netlist.meaning self.now) cells.old cells.new result }
    {
        splitting::split(&self.standing(), cells)
    }
}
