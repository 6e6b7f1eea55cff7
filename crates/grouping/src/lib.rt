//! The modules of a group, and nets as sets of groups.
#![tactic(auto)]

pub mod groups;
pub mod masks;
