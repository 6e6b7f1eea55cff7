//! The tests of orders and splits.
#![tactic(auto)]

#[cfg(test)]
mod comparing;
#[cfg(test)]
mod loading;
#[cfg(test)]
mod order_tests;
#[cfg(test)]
mod split_tests;
