//! The tests of the netlists: the two bottoms and the layers.
#![tactic(auto)]

#[cfg(test)]
mod asked;
#[cfg(test)]
mod bottom_tests;
#[cfg(test)]
mod comparing;
#[cfg(test)]
mod layer_tests;
#[cfg(test)]
mod loading;
