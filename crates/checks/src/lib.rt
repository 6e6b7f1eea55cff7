//! The tests of prices, pages and lines.
#![tactic(auto)]

#[cfg(test)]
mod comparing;
#[cfg(test)]
mod lines_tests;
#[cfg(test)]
mod packing;
#[cfg(test)]
mod page_tests;
#[cfg(test)]
mod price_tests;
