//! The empty pin tables, and the questions about pin tables.
ghost use Rattle.std.specs.Prelude.{◌≡◌, ◌<◌, ◌≤◌, length, MatchOption};
ghost use Rattle.bottom.specs.BottomMeaning.{empty_meaning};
ghost use Rattle.pin_tables.specs.Tables.{net_pins};
ghost use Rattle.pin_tables.specs.Means.{means, means_sound};

use crate::PinTables;
use netlist::Netlist;
use price::Price;

impl<'a, P: Price> PinTables<'a, P> {
    /// Tables without modules and nets.
    pub fn empty() -> Self
        ensures { means result ≡ empty_meaning }
    {
        PinTables {
            modules: 0,
            starts: &[0],
            pins: &[],
            prices: &[],
        }
    }

    // The pins of a net.
    fn pins_of(&self, net: usize) -> Option<&[u8]>
        ensures { MatchOption result
            (length self.now.prices.now ≤ net)
            (λ pins. (net < length self.now.prices.now) × (pins.now ≡ net_pins self.now.starts.now self.now.pins.now net)) }
    {
        let from = *self.starts.get(net)? as usize;
        let to = *self.starts.get(net + 1)? as usize;
        Some(&self.pins[from..to])
    }
}

// Those about modules and prices are a line each, the same in both bottoms: forwarding to a shared struct takes as many.
impl<'a, P: Price> Netlist for PinTables<'a, P> {
    type Price = P;

    ghost meaning = { means };

    ghost sound = { means_sound };

    fn home_count(&self) -> usize {
        self.modules
    }

    fn module_count(&self) -> usize {
        self.modules
    }

    fn net_count(&self) -> usize {
        self.prices.len()
    }

    fn place(&self, home: usize) -> Option<u8> {
        (home < self.modules).then(|| home as u8)
    }

    fn pin_count(&self, net: usize) -> Option<usize> {
        Some(self.pins_of(net)?.len())
    }

    fn pin(&self, net: usize, k: usize) -> Option<u8> {
        self.pins_of(net)?.get(k).copied()
    }

    fn price(&self, net: usize) -> Option<P> {
        self.prices.get(net).copied()
    }

    fn is_muted(&self, net: usize) -> Option<bool> {
        (net < self.prices.len()).then_some(false)
    }
}
