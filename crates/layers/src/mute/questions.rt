//! The questions, asked of a mute layer.
ghost use Rattle.layers.specs.Layered.{mute_meaning, mute_sound};

use crate::mute::MuteLayer;
use netlist::Netlist;
use price::Price;

impl<N: Netlist> Netlist for MuteLayer<N> {
    type Price = N::Price;

    ghost meaning = { mute_meaning N.Netlist.meaning };

    ghost sound = { mute_sound N.Netlist.meaning N.Netlist.sound };

    fn home_count(&self) -> usize {
        self.below.home_count()
    }

    fn module_count(&self) -> usize {
        self.below.module_count()
    }

    fn net_count(&self) -> usize {
        self.below.net_count()
    }

    fn place(&self, home: usize) -> Option<u8> {
        self.below.place(home)
    }

    fn pin_count(&self, net: usize) -> Option<usize> {
        self.below.pin_count(net)
    }

    fn pin(&self, net: usize, k: usize) -> Option<u8> {
        self.below.pin(net, k)
    }

    fn price(&self, net: usize) -> Option<N::Price> {
        let price = self.below.price(net)?;
        if self.row[net] {
            Some(N::Price::zero())
        } else {
            Some(price)
        }
    }

    fn is_muted(&self, net: usize) -> Option<bool> {
        let muted = self.below.is_muted(net)?;
        Some(muted || self.row[net])
    }
}
