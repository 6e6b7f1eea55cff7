//! The order of a netlist's modules, and its cheapest split.
#![tactic(auto)]

mod groups;
pub mod ordering;
mod pull_row;
mod round;
mod rounds;
pub mod splitting;
