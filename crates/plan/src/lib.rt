//! The plan: a list of changes over a netlist, the cheapest split that they leave, and what is promised of every run.
#![tactic(auto)]

pub mod calls;
pub mod plans;
