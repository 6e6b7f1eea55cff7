//! What the program prints of a page and a script.
#![tactic(auto)]

pub mod answering;
pub mod kinds;
pub mod limits;
pub mod printing;
pub mod readers;
pub mod reading;
pub mod tables;
