//! A chain made, and the questions about it.
ghost use Rattle.std.specs.Prelude.{◌≡◌, ◌-◌, ◌<◌, ◌≤◌, MatchOption, min};
ghost use Rattle.chain.specs.Chains.{means, means_sound, chain_meaning, chain_pins};

use crate::Chain;
use netlist::Netlist;
use netlist::limits::MODULES_MOST;
use price::Price;
use price::values::Wires;

impl Chain {
    /// A chain of so many modules, at most 64.
    pub fn of(modules: u8) -> Chain
        ensures { means result ≡ chain_meaning (min modules 64) }
    {
        Chain {
            modules: modules.min(MODULES_MOST as u8),
        }
    }

    // The pins of a net: the module of its number and the next.
    fn pins_of(&self, net: usize) -> Option<[u8; 2]>
        ensures { MatchOption result
            (self.now.modules - 1 ≤ net)
            (λ pins. (net < self.now.modules - 1) × (pins ≡ chain_pins net)) }
    {
        let first = u8::try_from(net).ok()?;
        let next = first.checked_add(1)?;
        (next < self.modules).then_some([first, next])
    }
}

impl Netlist for Chain {
    type Price = Wires;

    ghost meaning = { means };

    ghost sound = { means_sound };

    fn home_count(&self) -> usize {
        self.modules as usize
    }

    fn module_count(&self) -> usize {
        self.modules as usize
    }

    fn net_count(&self) -> usize {
        self.modules.saturating_sub(1) as usize
    }

    fn place(&self, home: usize) -> Option<u8> {
        (home < self.modules as usize).then(|| home as u8)
    }

    fn pin_count(&self, net: usize) -> Option<usize> {
        Some(self.pins_of(net)?.len())
    }

    fn pin(&self, net: usize, k: usize) -> Option<u8> {
        self.pins_of(net)?.get(k).copied()
    }

    fn price(&self, net: usize) -> Option<Wires> {
        (net < self.net_count()).then_some(Wires { count: 1 })
    }

    fn is_muted(&self, net: usize) -> Option<bool> {
        (net < self.net_count()).then_some(false)
    }
}
