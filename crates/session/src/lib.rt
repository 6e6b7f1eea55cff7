//! Script lines run on a plan: one line, and a whole script.
#![tactic(auto)]

pub mod running;
pub mod whole_script;
