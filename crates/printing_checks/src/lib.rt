//! The tests of what the program prints.
#![tactic(auto)]

#[cfg(test)]
mod answering_tests;
#[cfg(test)]
mod comparing;
#[cfg(test)]
mod fitful;
#[cfg(test)]
mod printed_tests;
#[cfg(test)]
mod readers_tests;
