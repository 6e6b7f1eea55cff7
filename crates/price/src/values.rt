//! The values of the three price kinds. The ghost fields bound the numbers, so that the laws range over just these values.
ghost use Rattle.std.specs.Prelude.{◌^◌, ◌<◌};

/// A number of wires.
#[derive(Clone, Copy, PartialEq, Eq, PartialOrd, Ord, Debug)]
pub struct Wires {
    pub count: u64,
    ghost bounded: { count < 2 ^ 64 },
}

/// A number of timers, and a number of wires that counts on equal timers only.
#[derive(Clone, Copy, PartialEq, Eq, PartialOrd, Ord, Debug)]
pub struct TimersFirst {
    pub timers: u32,
    pub wires: u32,
    ghost bounded: { (timers < 2 ^ 32) × (wires < 2 ^ 32) },
}

/// The width of the widest net.
#[derive(Clone, Copy, PartialEq, Eq, PartialOrd, Ord, Debug)]
pub struct Widest {
    pub width: u64,
    ghost bounded: { width < 2 ^ 64 },
}
