//! Readers and writers of which it can be said how they fail, bytes read from one, and bytes written to the other.
#![tactic(auto)]

pub mod reading;
pub mod sinks;
pub mod sources;
pub mod writing;
