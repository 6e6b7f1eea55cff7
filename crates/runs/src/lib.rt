//! Lists of calls run on a new plan, and the promise that every run keeps.
#![tactic(auto)]

pub mod ordering;
pub mod running;
