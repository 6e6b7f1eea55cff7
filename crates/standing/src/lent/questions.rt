//! The questions, asked of a lent netlist.
ghost use Rattle.standing.specs.LentMeaning.{lent_meaning, lent_sound};

use crate::lent::Lent;
use netlist::Netlist;

impl<'a, N: Netlist> Netlist for Lent<'a, N> {
    type Price = N::Price;

    ghost meaning = { lent_meaning N.Netlist.meaning };

    ghost sound = { lent_sound N.Netlist.meaning N.Netlist.sound };

    fn home_count(&self) -> usize {
        self.netlist.home_count()
    }

    fn module_count(&self) -> usize {
        self.netlist.module_count()
    }

    fn net_count(&self) -> usize {
        self.netlist.net_count()
    }

    fn place(&self, home: usize) -> Option<u8> {
        self.netlist.place(home)
    }

    fn pin_count(&self, net: usize) -> Option<usize> {
        self.netlist.pin_count(net)
    }

    fn pin(&self, net: usize, k: usize) -> Option<u8> {
        self.netlist.pin(net, k)
    }

    fn price(&self, net: usize) -> Option<N::Price> {
        self.netlist.price(net)
    }

    fn is_muted(&self, net: usize) -> Option<bool> {
        self.netlist.is_muted(net)
    }
}
