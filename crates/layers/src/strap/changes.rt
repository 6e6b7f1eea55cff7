//! A strap layer made, and home modules strapped in it.
ghost use Rattle.std.specs.Prelude.{◌≡◌};
ghost use Rattle.layers.specs.Layered.{strap_meaning};
ghost use Rattle.layers.specs.Refusals.{Ends, HomePlace};
ghost use Rattle.layers.specs.Changed.{Straps};

use crate::strap::StrapLayer;
use netlist::Netlist;
use refusal::Fault;
use rows::{singles, united_row};

impl<N: Netlist> StrapLayer<N> {
    /// A layer that means what it stands on.
    pub fn over(below: N) -> Self
        ensures { (strap_meaning N.Netlist.meaning result ≡ N.Netlist.meaning below) × (result.below ≡ below) }
    {
        StrapLayer {
            below,
            row: singles(),
        }
    }

    /// Unites the groups of home modules `a` and `b`; what lies below stays.
    /// Refused, with the layer as it was: 11 where one of them is not there, then 12 where they are in one group.
    pub fn strap(&mut self, a: usize, b: usize) -> Result<(), Fault>
        ensures straps { Straps (strap_meaning N.Netlist.meaning) a b self.old self.new result }
        ensures below { self.new.below ≡ self.old.below }
    {
        let (v, w) = self.ends(a, b)?;
        self.row = united_row(self.row, v, w);
        Ok(())
    }

    // The places of two home modules that may be strapped.
    fn ends(&self, a: usize, b: usize) -> Result<(u8, u8), Fault>
        ensures { Ends a b (strap_meaning N.Netlist.meaning self.now) result }
    {
        let v = self.home_place(a)?;
        let w = self.home_place(b)?;
        if v == w {
            return Err(Fault::AlreadyTogether);
        }
        Ok((v, w))
    }

    // The place of a home module that is there.
    fn home_place(&self, home: usize) -> Result<u8, Fault>
        ensures { HomePlace home (strap_meaning N.Netlist.meaning self.now) result }
    {
        self.place(home).ok_or(Fault::NoSuchHomeModule)
    }
}
