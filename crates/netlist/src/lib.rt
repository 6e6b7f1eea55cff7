//! Netlists: the questions that every implementation answers, and what the answers mean.
#![tactic(auto)]

ghost use Rattle.std.specs.Prelude.{◌≡◌, length};
ghost use Rattle.std.specs.List.{slice_get};
ghost use Rattle.netlist.specs.Meaning.{Meaning, Sound, homes, modules, own_nets};
ghost use Rattle.netlist.specs.Nets.{pin_count_at, pin_at, price_at};

use price::Price;

pub mod laws;
pub mod limits;

/// A netlist: an implementation says by `meaning` what it is, and each question answers exactly by that.
/// An answer is absent exactly when the number asked for is not there.
pub trait Netlist {
    type Price: Price;

    ghost meaning: { Self → Meaning Self.Price };

    ghost sound: { (s : Self) → Sound (meaning s) };

    /// How many home modules there are.
    fn home_count(&self) -> usize
        ensures { result ≡ homes (meaning self.now) };

    /// How many modules there are: the places of the home modules.
    fn module_count(&self) -> usize
        ensures { result ≡ modules (meaning self.now) };

    /// How many nets there are.
    fn net_count(&self) -> usize
        ensures { result ≡ length (meaning self.now).nets };

    /// The place of a home module.
    fn place(&self, home: usize) -> Option<u8>
        ensures { result ≡ slice_get (meaning self.now).places home };

    /// How many pins a net has.
    fn pin_count(&self, net: usize) -> Option<usize>
        ensures { result ≡ pin_count_at (own_nets Self.Price.Price.kind (meaning self.now)) net };

    /// The module that pin number `k` of a net is at.
    fn pin(&self, net: usize, k: usize) -> Option<u8>
        ensures { result ≡ pin_at (own_nets Self.Price.Price.kind (meaning self.now)) net k };

    /// The price of a net, zero where it is muted.
    fn price(&self, net: usize) -> Option<Self::Price>
        ensures { result ≡ price_at (own_nets Self.Price.Price.kind (meaning self.now)) net };

    /// Whether a net is muted.
    fn is_muted(&self, net: usize) -> Option<bool>
        ensures { result ≡ slice_get (meaning self.now).muted net };
}
