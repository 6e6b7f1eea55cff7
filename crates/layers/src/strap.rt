//! The strap layer: what it stands on, with groups united.
ghost use Rattle.std.specs.Prelude.{◌≡◌, length};
ghost use Rattle.layers.specs.Rows.{InTurn};

use netlist::limits::MODULES_MOST;

pub mod changes;
pub mod questions;

/// A netlist with groups of its home modules united; what lies below stays as it is.
/// `row` has the group of each module below, numbered in turn, in fixed memory: a layer uses no heap.
#[derive(Drop)]
pub struct StrapLayer<N> {
    below: N,
    row: [u8; MODULES_MOST],
    ghost long: { length row ≡ 64 },
    ghost numbered: { InTurn row },
}
