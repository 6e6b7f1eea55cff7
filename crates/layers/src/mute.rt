//! The mute layer: what it stands on, with more nets muted.
ghost use Rattle.std.specs.Prelude.{◌≡◌, length};

use netlist::limits::NETS_MOST;

pub mod changes;
pub mod questions;

/// A netlist with more of its nets muted. No call of this layer changes what lies below; straps are applied to it there (crate `standing`), so it is public.
/// `row` marks the nets that this layer mutes, in fixed memory: a layer uses no heap.
#[derive(Drop)]
pub struct MuteLayer<N> {
    pub below: N,
    row: [bool; NETS_MOST],
    ghost long: { length row ≡ 1024 },
}
