//! What is shown, and the questions asked of a plan: the netlist below with the standing changes applied answers them.
ghost use Rattle.std.specs.Prelude.{◌≡◌};
ghost use Rattle.plan.specs.PlanCalls.{CallOn};
ghost use Rattle.plan.specs.Reckoning.{look as look_call, told};
ghost use Rattle.standing.specs.LentMeaning.{standing_meaning};
ghost use Rattle.plan.specs.Plans.{plan_meaning, plan_sound};

use crate::plans::Plan;
use cut::found::FoundSplit;
use layers::mute::MuteLayer;
use layers::strap::StrapLayer;
use netlist::Netlist;
use price::Price;
use standing::lent::Lent;

impl<N: Netlist> Plan<N> {
    /// The split that is shown: the answer of the latest accepted split, where no change or take back was accepted after it.
    pub fn look(&self) -> Option<FoundSplit<N::Price>>
        ensures { CallOn N.Price.Price.kind N.Netlist.meaning look_call self.now self.now (told result) }
    {
        self.shown
    }

    // The netlist below with the standing changes applied.
    pub(crate) fn standing(&self) -> MuteLayer<StrapLayer<Lent<'_, N>>>
        ensures { standing_meaning N.Netlist.meaning result ≡ plan_meaning N.Netlist.meaning self.now }
    {
        standing::standing(&self.below, self.changes.as_slice())
    }
}

impl<N: Netlist> Netlist for Plan<N> {
    type Price = N::Price;

    ghost meaning = { plan_meaning N.Netlist.meaning };

    ghost sound = { plan_sound N.Netlist.meaning N.Netlist.sound };

    fn home_count(&self) -> usize {
        self.standing().home_count()
    }

    fn module_count(&self) -> usize {
        self.standing().module_count()
    }

    fn net_count(&self) -> usize {
        self.standing().net_count()
    }

    fn place(&self, home: usize) -> Option<u8> {
        self.standing().place(home)
    }

    fn pin_count(&self, net: usize) -> Option<usize> {
        self.standing().pin_count(net)
    }

    fn pin(&self, net: usize, k: usize) -> Option<u8> {
        self.standing().pin(net, k)
    }

    fn price(&self, net: usize) -> Option<N::Price> {
        self.standing().price(net)
    }

    fn is_muted(&self, net: usize) -> Option<bool> {
        self.standing().is_muted(net)
    }
}
