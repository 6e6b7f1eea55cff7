//! How large a netlist is at most. Contracts say these bounds in digits.

/// A netlist has at most this many home modules, and a net at most this many pins.
pub const MODULES_MOST: usize = 64;

/// A netlist has at most this many nets.
pub const NETS_MOST: usize = 1024;
