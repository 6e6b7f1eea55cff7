//! The strap layer and the mute layer over any netlist.
#![tactic(auto)]

pub mod mute;
pub mod strap;
