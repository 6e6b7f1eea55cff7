//! The tests of plans and runs.
#![tactic(auto)]

#[cfg(test)]
mod comparing;
#[cfg(test)]
mod plan_tests;
#[cfg(test)]
mod run_tests;
