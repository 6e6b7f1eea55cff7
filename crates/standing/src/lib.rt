//! A netlist with changes standing over it.
#![tactic(auto)]

ghost use Rattle.std.specs.Prelude.{◌≡◌, reverse, IfErr};
ghost use Rattle.refusal.specs.Checks.{checked};
ghost use Rattle.standing.specs.Standing.{apply, applied, change_fault};
ghost use Rattle.standing.specs.LentMeaning.{layers_meaning, standing_meaning};

use crate::change::Change;
use crate::lent::Lent;
use layers::mute::MuteLayer;
use layers::strap::StrapLayer;
use netlist::Netlist;
use refusal::Fault;

pub mod change;
pub mod lent;

/// The netlist with these changes applied, the first of them first, as layers over it.
pub fn standing<'a, N: Netlist>(
    netlist: &'a N,
    changes: &[Change],
) -> MuteLayer<StrapLayer<Lent<'a, N>>>
    ensures { standing_meaning N.Netlist.meaning result ≡ applied (N.Netlist.meaning netlist.now) (reverse changes.now) }
{
    let mut layers = MuteLayer::over(StrapLayer::over(Lent { netlist }));
    for change in changes {
        // A refusal changes nothing; of a plan's changes none is refused.
        let _ = apply_change(&mut layers, *change);
    }
    layers
}

/// Applies a change; the netlist below stays. One that the layers refuse is answered by their refusal, and leaves the layers as they were.
pub fn apply_change<N: Netlist>(
    layers: &mut MuteLayer<StrapLayer<N>>,
    change: Change,
) -> Result<(), Fault>
    ensures applies { layers_meaning N.Netlist.meaning layers.new ≡ apply change (layers_meaning N.Netlist.meaning layers.old) }
    ensures checked { result ≡ checked (change_fault change (layers_meaning N.Netlist.meaning layers.old)) }
    ensures refused { IfErr result (λ fault. layers.new ≡ layers.old) }
    ensures below { layers.new.below.below ≡ layers.old.below.below }
{
    match change {
        Change::Strapped(a, b) => layers.below.strap(a, b),
        Change::Muted(net) => layers.mute(net),
    }
}
