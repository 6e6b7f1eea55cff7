//! What the two bottoms share: their meaning, and the checks of load that need no table.
#![tactic(auto)]

ghost use Rattle.std.specs.Prelude.{◌≡◌};
ghost use Rattle.std.specs.Option.{option_map};
ghost use Rattle.refusal.specs.declared.Place.TheVariants.{Net};
ghost use Rattle.refusal.specs.declared.Fault.TheVariants.{TooFewPins};
ghost use Rattle.refusal.specs.Checks.{checked};
ghost use Rattle.bottom.specs.LoadFaults.{counts_fault};

use netlist::limits::{MODULES_MOST, NETS_MOST};
use refusal::{Fault, Place};

/// Refuses more than 64 modules, then more than 1,024 nets.
pub fn check_counts(modules: usize, nets: usize) -> Result<(), Fault>
    ensures { result ≡ checked (counts_fault modules nets) }
{
    if modules > MODULES_MOST {
        return Err(Fault::TooManyModules { at: Place::Call });
    }
    if nets > NETS_MOST {
        return Err(Fault::TooManyNets { at: Place::Call });
    }
    Ok(())
}

/// Refuses the net that is handed in, the first with fewer than two pins, where there is one.
pub fn check_few_pins(first: Option<usize>) -> Result<(), Fault>
    ensures { result ≡ checked (option_map (λ net. TooFewPins (Net net)) first) }
{
    match first {
        Some(net) => Err(Fault::TooFewPins {
            at: Place::Net(net),
        }),
        None => Ok(()),
    }
}
