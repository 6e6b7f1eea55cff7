//! The groups that a netlist's modules are in, united in place from round to round.
ghost use Rattle.std.specs.Prelude.{◌≡◌, ℕ, ◌<◌, length};
ghost use Rattle.netlist.specs.Places.{place as place_in};
ghost use Rattle.netlist.specs.Changes.{united as united_in};
ghost use Rattle.partition.specs.Rounds.{NetGroups};

use grouping::masks::{gather, unite_masks};
use moduleset::ModuleSet;
use netlist::Netlist;
use netlist::limits::{MODULES_MOST, NETS_MOST};
use price::Price;
use rows::{singles, united_row};

// For each module its group, in a row of 64 bytes, and of each net the groups of its pins. Lent and not copied: the sets take 8 KiB.
#[derive(Drop)]
pub(crate) struct Groups {
    pub(crate) row: [u8; MODULES_MOST],
    // An array, of which as many count as the netlist has nets: a vector would keep that number a second time.
    pub(crate) masks: [ModuleSet; NETS_MOST],
}

impl Groups {
    // Each module a group of its own.
    pub(crate) fn singles<N: Netlist>(netlist: &N) -> Groups
        ensures own { (v : ℕ) → v < 64 → place_in result.row v ≡ v }
        ensures long { length result.row ≡ 64 }
        ensures nets { NetGroups N.Price.Price.kind (N.meaning netlist.now) result }
    {
        Groups {
            row: singles(),
            masks: gather(netlist),
        }
    }

    // Makes groups `a` and `b` one. The sets past the netlist's last net stay, so that few nets take little time.
    pub(crate) fn unite<N: Netlist>(&mut self, netlist: &N, a: u8, b: u8)
        ensures row { self.new.row ≡ united_in a b self.old.row }
        ensures nets { NetGroups N.Price.Price.kind (N.meaning netlist.now) self.old → NetGroups N.Price.Price.kind (N.meaning netlist.now) self.new }
    {
        self.row = united_row(self.row, a, b);
        unite_masks(&mut self.masks[..netlist.net_count()], a, b);
    }
}
