//! A mute layer made, and nets muted in it.
ghost use Rattle.std.specs.Prelude.{◌≡◌};
ghost use Rattle.refusal.specs.Checks.{checked};
ghost use Rattle.layers.specs.Layered.{mute_meaning};
ghost use Rattle.layers.specs.Refusals.{mute_fault};
ghost use Rattle.layers.specs.Changed.{Mutes};

use crate::mute::MuteLayer;
use netlist::Netlist;
use netlist::limits::NETS_MOST;
use refusal::Fault;

impl<N: Netlist> MuteLayer<N> {
    /// A layer that means what it stands on.
    pub fn over(below: N) -> Self
        ensures { (mute_meaning N.Netlist.meaning result ≡ N.Netlist.meaning below) × (result.below ≡ below) }
    {
        MuteLayer {
            below,
            row: [false; NETS_MOST],
        }
    }

    /// Mutes a net too; what lies below stays.
    /// Refused, with the layer as it was: 13 where the net is not there, then 14 where it is muted already.
    pub fn mute(&mut self, net: usize) -> Result<(), Fault>
        ensures mutes { Mutes (mute_meaning N.Netlist.meaning) net self.old self.new result }
        ensures below { self.new.below ≡ self.old.below }
    {
        self.check_unmuted(net)?;
        self.row[net] = true;
        Ok(())
    }

    // That a net is there and not muted.
    fn check_unmuted(&self, net: usize) -> Result<(), Fault>
        ensures { result ≡ checked (mute_fault net (mute_meaning N.Netlist.meaning self.now)) }
    {
        match self.is_muted(net) {
            None => Err(Fault::NoSuchNet),
            Some(true) => Err(Fault::AlreadyMuted),
            Some(false) => Ok(()),
        }
    }
}
