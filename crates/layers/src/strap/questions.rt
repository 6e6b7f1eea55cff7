//! The questions, asked of a strap layer.
ghost use Rattle.std.specs.Prelude.{◌≡◌};
ghost use Rattle.netlist.specs.Places.{groups};
ghost use Rattle.layers.specs.Layered.{strap_meaning, strap_sound};

use crate::strap::StrapLayer;
use netlist::Netlist;

impl<N: Netlist> Netlist for StrapLayer<N> {
    type Price = N::Price;

    ghost meaning = { strap_meaning N.Netlist.meaning };

    ghost sound = { strap_sound N.Netlist.meaning N.Netlist.sound };

    fn home_count(&self) -> usize {
        self.below.home_count()
    }

    fn module_count(&self) -> usize {
        group_count(&self.row[..self.below.module_count()])
    }

    fn net_count(&self) -> usize {
        self.below.net_count()
    }

    fn place(&self, home: usize) -> Option<u8> {
        let module = self.below.place(home)?;
        Some(self.row[usize::from(module)])
    }

    fn pin_count(&self, net: usize) -> Option<usize> {
        self.below.pin_count(net)
    }

    fn pin(&self, net: usize, k: usize) -> Option<u8> {
        let pin = self.below.pin(net, k)?;
        Some(self.row[usize::from(pin)])
    }

    fn price(&self, net: usize) -> Option<N::Price> {
        self.below.price(net)
    }

    fn is_muted(&self, net: usize) -> Option<bool> {
        self.below.is_muted(net)
    }
}

// How many groups a row has: one more than the greatest, and none where it is empty.
fn group_count(row: &[u8]) -> usize
    ensures { result ≡ groups row.now }
{
    row.iter()
        .map(|group| usize::from(*group) + 1)
        .max()
        .unwrap_or(0)
}
