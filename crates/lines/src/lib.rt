//! The lines that the program writes into a caller's buffer.
#![tactic(auto)]

mod bytes;
pub mod writing;

/// A buffer for a line has at least this many bytes: no line is longer.
pub const LINE_ROOM: usize = 37;
