//! What a page holds at most, and how long a page and a script are at most.

use netlist::limits::{MODULES_MOST, NETS_MOST};

/// All nets together have at most this many pins.
pub const PINS_MOST: usize = MODULES_MOST * NETS_MOST;

/// A page has at most this many bytes.
pub const PAGE_MOST: usize = 54_147;

/// A script has at most this many bytes.
pub const SCRIPT_MOST: usize = 65536;
