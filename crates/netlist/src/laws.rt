//! What uniting groups, strapping and muting do, each a theorem in a contract.
ghost use Rattle.netlist.specs.Strapping.{Strapping, StrapsKeepSound, MutesKeepSound};
ghost use Rattle.netlist.specs.Uniting.{Uniting, OnlyNumbering};

/// Uniting two groups joins these and parts none, and numbers again by lowest home module.
pub fn uniting_joins_two_groups()
    ensures { Uniting }
{}

/// The places that number given groups by lowest home module are the only ones.
pub fn numbering_is_the_only_one()
    ensures { OnlyNumbering }
{}

/// After a strap exactly those sides keep the groups that kept them before and have the two ends on one side.
pub fn strapping_puts_both_on_one_side()
    ensures { Strapping }
{}

/// A strap between home modules keeps a meaning sound.
pub fn straps_keep_sound<P>()
    ensures { StrapsKeepSound P }
{}

/// A mute of a net keeps a meaning sound.
pub fn mutes_keep_sound<P>()
    ensures { MutesKeepSound P }
{}
