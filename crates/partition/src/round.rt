//! A round over a netlist: the groups, and their order, step by step.
ghost use Rattle.std.specs.Prelude.{◌≡◌, ℕ, ◌<◌, ◌≤◌, length, replicate};
ghost use Rattle.netlist.specs.Places.{place as place_in};
ghost use Rattle.netlist.specs.Meaning.{modules};
ghost use Rattle.cut.specs.Orders.{order as order_in};
ghost use Rattle.grouping.specs.Masks.{grouped};
ghost use Rattle.partition.specs.Pulls.{KeysArePulls};
ghost use Rattle.partition.specs.Orders.{last_price};
ghost use Rattle.partition.specs.Rounds.{GroupRow, NetGroups, RoundMade, TakesMostPulled};

use crate::groups::Groups;
use crate::pull_row::{PullRow, clear};
use grouping::groups::group_set;
use grouping::masks::pulled_at;
use moduleset::ModuleSet;
use netlist::Netlist;
use netlist::limits::MODULES_MOST;
use price::Price;

// A split that a round notes: the modules on side B, and its price.
#[derive(Clone, Copy)]
pub(crate) struct Noted<P> {
    pub(crate) sides: ModuleSet,
    pub(crate) price: P,
}

// What a round notes, and the last two groups of its order, to be united.
#[derive(Clone, Copy)]
pub(crate) struct RoundEnd<P> {
    pub(crate) noted: Noted<P>,
    pub(crate) next_to_last: u8,
    pub(crate) last: u8,
}

// A round over so many groups of a netlist's modules, two and more.
#[derive(Drop)]
pub(crate) struct Round<'a, N: Netlist> {
    netlist: &'a N,
    count: u8,
    groups: &'a Groups,
    ghost several: { 1 < count },
    ghost few: { count ≤ 64 },
    ghost within: { (v : ℕ) → v < modules (N.meaning netlist.now) → place_in groups.now.row v < count },
    ghost sets: { length (N.meaning netlist.now).nets ≤ length groups.now.masks },
    ghost nets: { NetGroups N.Price.Price.kind (N.meaning netlist.now) groups.now },
}

impl<'a, N: Netlist> Round<'a, N> {
    // The round over so many groups.
    pub(crate) fn new(netlist: &'a N, groups: &'a Groups, count: u8) -> Round<'a, N>
        requires several { 1 < count }
        requires few { count ≤ 64 }
        requires row { GroupRow (modules (N.meaning netlist.now)) count groups.now.row }
        requires nets { NetGroups N.Price.Price.kind (N.meaning netlist.now) groups.now }
        ensures netlist { result.netlist.now ≡ netlist.now }
        ensures groups { result.groups.now ≡ groups.now }
        ensures count { result.count ≡ count }
    {
        Round {
            netlist,
            count,
            groups,
        }
    }

    // Parts off the last of the order.
    pub(crate) fn part_last(&self, cells: &mut [N::Price]) -> RoundEnd<N::Price>
        requires { self.now.count ≤ length cells.old }
        ensures { RoundMade N.Price.Price.kind (N.meaning self.now.netlist.now) self.now.count self.now.groups.now.row cells.old cells.new result }
    {
        let mut bytes = [0u8; MODULES_MOST];
        let order = &mut bytes[..self.count as usize];
        let price = self.order(&mut cells[..self.count as usize], order);
        let last = order[order.len() - 1];
        let next_to_last = order[order.len() - 2];
        RoundEnd {
            noted: Noted {
                sides: group_set(self.groups.row, last),
                price,
            },
            next_to_last,
            last,
        }
    }

    // Writes the order of the groups into the bytes, and answers the price of parting off the last alone.
    pub(crate) fn order(&self, cells: &mut [N::Price], bytes: &mut [u8]) -> N::Price
        requires room { length cells.old ≡ self.now.count }
        requires long { length bytes.old ≡ self.now.count }
        ensures order { bytes.new ≡ order_in N.Price.Price.kind (grouped N.Price.Price.kind (N.meaning self.now.netlist.now) self.now.groups.now.row) self.now.count }
        ensures cells { cells.new ≡ replicate self.now.count N.Price.Price.kind.zero }
        ensures price { result ≡ last_price N.Price.Price.kind (grouped N.Price.Price.kind (N.meaning self.now.netlist.now) self.now.groups.now.row) bytes.new }
    {
        let taken = ModuleSet::at_or_past(self.count as usize).with(0);
        let mut pulls = PullRow {
            cells: &mut *cells,
            taken,
        };
        let mut price = N::Price::zero();
        bytes[0] = 0;
        for byte in bytes[1..].iter_mut() {
            let Some(v) = self.take_next(&mut pulls) else {
                break;
            };
            *byte = v;
            price = pulls.key(v);
        }
        clear(cells);
        price
    }

    // Takes the group most pulled by those taken, the lowest on equal pulls. Its key is its pull.
    fn take_next(&self, pulls: &mut PullRow<'_, N::Price>) -> Option<u8>
        ensures took { TakesMostPulled N.Price.Price.kind (N.meaning self.now.netlist.now) self.now.groups.now.row pulls.old.taken.word pulls.new.taken.word result }
        ensures keys { KeysArePulls N.Price.Price.kind (grouped N.Price.Price.kind (N.meaning self.now.netlist.now) self.now.groups.now.row) pulls.old.taken.word pulls.new.cells.now }
        ensures long { length pulls.new.cells.now ≡ length pulls.old.cells.now }
    {
        self.set_keys(pulls);
        pulls.take_greatest()
    }

    // Makes the key of each group that waits its pull toward those taken: the prices of the nets that pull there, joined.
    fn set_keys(&self, pulls: &mut PullRow<'_, N::Price>)
        ensures keys { KeysArePulls N.Price.Price.kind (grouped N.Price.Price.kind (N.meaning self.now.netlist.now) self.now.groups.now.row) pulls.old.taken.word pulls.new.cells.now }
        ensures long { length pulls.new.cells.now ≡ length pulls.old.cells.now }
        ensures taken { pulls.new.taken ≡ pulls.old.taken }
    {
        clear(pulls.cells);
        for (i, mask) in self.groups.masks[..self.netlist.net_count()]
            .iter()
            .enumerate()
        {
            let Some(v) = pulled_at(*mask, pulls.taken) else {
                continue;
            };
            // Asked only where the net pulls: most nets do not, at most steps.
            let Some(price) = self.netlist.price(i) else {
                break;
            };
            pulls.join(v, price);
        }
    }
}
