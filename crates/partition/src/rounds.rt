//! The rounds over a netlist's modules.
ghost use Rattle.std.specs.Prelude.{◌≡◌, ◌<◌, ◌≤◌, length, drop};
ghost use Rattle.netlist.specs.Meaning.{modules, own_nets};
ghost use Rattle.cut.specs.Rounds.{cheaper as cheaper_of};
ghost use Rattle.partition.specs.Rounds.{by_noted, FoundOver};

use crate::groups::Groups;
use crate::round::{Noted, Round};
use netlist::Netlist;
use price::Price;

// All rounds over two modules and more: the noted split of lowest price, the earliest on equal prices.
pub(crate) fn split_modules<N: Netlist>(
    netlist: &N,
    cells: &mut [N::Price],
    count: u8,
) -> Noted<N::Price>
    requires all { count ≡ modules (N.meaning netlist.now) }
    requires two { 1 < count }
    requires room { count ≤ length cells.old }
    ensures found { FoundOver N.Price.Price.kind (own_nets N.Price.Price.kind (N.meaning netlist.now)) count (by_noted result) }
    ensures later { drop count cells.new ≡ drop count cells.old }
{
    let mut groups = Groups::singles(netlist);
    let mut end = Round::new(netlist, &groups, count).part_last(cells);
    let mut best = end.noted;
    for left in (2..count).rev() {
        groups.unite(netlist, end.next_to_last, end.last);
        end = Round::new(netlist, &groups, left).part_last(cells);
        best = best.or_cheaper(end.noted);
    }
    best
}

impl<P: Price> Noted<P> {
    // The cheaper of two splits, the first on equal prices.
    fn or_cheaper(self, other: Noted<P>) -> Noted<P>
        ensures { by_noted result ≡ cheaper_of P.kind (by_noted self) (by_noted other) }
    {
        if other.price.less(self.price) {
            other
        } else {
            self
        }
    }
}
