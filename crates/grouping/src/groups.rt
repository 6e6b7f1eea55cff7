//! The modules of a group, by a row of 64 bytes that is passed on by value.
ghost use Rattle.std.specs.Prelude.{◌≡◌, ℕ, ◌<◌};
ghost use Rattle.moduleset.specs.Words.{has as is_in};
ghost use Rattle.netlist.specs.Places.{place as place_in};
ghost use Rattle.cut.specs.Cuts.{alone};

use moduleset::ModuleSet;
use netlist::limits::MODULES_MOST;

/// The modules of a group.
pub fn group_set(row: [u8; MODULES_MOST], group: u8) -> ModuleSet
    ensures { (v : ℕ) → v < 64 → is_in result.word v ≡ alone group (place_in row v) }
{
    let mut set = ModuleSet::empty();
    for (v, place) in row.iter().enumerate() {
        if *place == group {
            set = set.with(v as u8);
        }
    }
    set
}
