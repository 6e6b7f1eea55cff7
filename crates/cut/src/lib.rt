//! The mathematics of cheapest splits: theorems that hold for every price kind, each in a function's contract.
#![tactic(auto)]

pub mod cuts;
pub mod found;
pub mod orders;
pub mod splits;
pub mod worked;
