//! The check of the pins that are loaded.
ghost use Rattle.std.specs.Prelude.{◌≡◌, ◌-◌, ◌<◌, length};
ghost use Rattle.refusal.specs.Checks.{checked};
ghost use Rattle.bottom.specs.LoadFaults.{net_fault, pins_fault};
ghost use Rattle.pin_tables.specs.Tables.{net_pins, Rising};

use refusal::{Fault, Place};

// Refuses the first pin, net by net, that names no module or repeats an earlier pin of its net.
pub(crate) fn check_pins(modules: usize, starts: &[u32], pins: &[u8]) -> Result<(), Fault>
    requires some { 0 < length starts.now }
    requires rising { Rising starts.now pins.now (length starts.now - 1) }
    ensures { result ≡ checked (pins_fault modules (net_pins starts.now pins.now) (length starts.now - 1)) }
{
    for (net, (from, to)) in starts.iter().zip(&starts[1..]).enumerate() {
        check_net(modules, net, &pins[*from as usize..*to as usize])?;
    }
    Ok(())
}

// Refuses the first pin of one net that names no module or repeats an earlier one.
// Nested loops left by a label, as decided: so no early return and no `contains`.
fn check_net(modules: usize, net: usize, pins: &[u8]) -> Result<(), Fault>
    ensures { result ≡ checked (net_fault modules net pins.now) }
{
    let mut found = Ok(());
    'positions: for (position, pin) in pins.iter().enumerate() {
        let at = Place::Pin { net, position };
        if *pin as usize >= modules {
            found = Err(Fault::NoSuchModule { at });
            break 'positions;
        }
        for earlier in &pins[..position] {
            if pin == earlier {
                found = Err(Fault::RepeatedPin { at });
                break 'positions;
            }
        }
    }
    found
}
