//! The empty bit rows, and the questions about bit rows.
ghost use Rattle.std.specs.Prelude.{◌≡◌, ◌<◌, ◌≤◌, length, MatchOption};
ghost use Rattle.bottom.specs.BottomMeaning.{empty_meaning};
ghost use Rattle.moduleset.specs.Words.{members};
ghost use Rattle.bit_rows.specs.Rows.{row_pins};
ghost use Rattle.bit_rows.specs.Means.{means, means_sound};

use crate::BitRows;
use moduleset::ModuleSet;
use netlist::Netlist;
use price::Price;

impl<'a, P: Price> BitRows<'a, P> {
    /// Rows without modules and nets.
    pub fn empty() -> Self
        ensures { means result ≡ empty_meaning }
    {
        BitRows {
            modules: 0,
            rows: &[],
            prices: &[],
        }
    }

    // The pins of a net.
    fn pins_of(&self, net: usize) -> Option<ModuleSet>
        ensures { MatchOption result
            (length self.now.prices.now ≤ net)
            (λ pins. (net < length self.now.prices.now) × (members pins.word ≡ row_pins self.now.rows.now net)) }
    {
        self.rows.get(net).map(|row| ModuleSet::from(*row))
    }
}

// Those about modules and prices are a line each, the same in both bottoms: forwarding to a shared struct takes as many.
impl<'a, P: Price> Netlist for BitRows<'a, P> {
    type Price = P;

    ghost meaning = { means };

    ghost sound = { means_sound };

    fn home_count(&self) -> usize {
        self.modules
    }

    fn module_count(&self) -> usize {
        self.modules
    }

    fn net_count(&self) -> usize {
        self.prices.len()
    }

    fn place(&self, home: usize) -> Option<u8> {
        (home < self.modules).then(|| home as u8)
    }

    fn pin_count(&self, net: usize) -> Option<usize> {
        Some(self.pins_of(net)?.size())
    }

    fn pin(&self, net: usize, k: usize) -> Option<u8> {
        self.pins_of(net)?.kth(k)
    }

    fn price(&self, net: usize) -> Option<P> {
        self.prices.get(net).copied()
    }

    fn is_muted(&self, net: usize) -> Option<bool> {
        (net < self.prices.len()).then_some(false)
    }
}
