//! The check of the pins that are loaded.
ghost use Rattle.std.specs.Prelude.{◌≡◌, ◌≤◌, length};
ghost use Rattle.moduleset.specs.Words.{members};
ghost use Rattle.refusal.specs.Checks.{checked};
ghost use Rattle.bottom.specs.LoadFaults.{net_fault, pins_fault};
ghost use Rattle.bit_rows.specs.Rows.{row_pins};

use moduleset::ModuleSet;
use refusal::{Fault, Place};

// Refuses the first pin, net by net, that names no module.
#[tactic(auto, using(refusal::proofs::CheckLaws::first_none))]
pub(crate) fn check_pins(modules: usize, rows: &[u64]) -> Result<(), Fault>
    requires { modules ≤ 64 }
    ensures { result ≡ checked (pins_fault modules (row_pins rows.now) (length rows.now)) }
{
    for (net, row) in rows.iter().enumerate() {
        check_net(modules, net, ModuleSet::from(*row))?;
    }
    Ok(())
}

// Refuses the first pin of one net that names no module: the pins rise, so those that are modules come first, and none repeats.
fn check_net(modules: usize, net: usize, pins: ModuleSet) -> Result<(), Fault>
    requires { modules ≤ 64 }
    ensures { result ≡ checked (net_fault modules net (members pins.word)) }
{
    let position = pins.minus(ModuleSet::at_or_past(modules)).size();
    if position < pins.size() {
        return Err(Fault::NoSuchModule {
            at: Place::Pin { net, position },
        });
    }
    Ok(())
}
