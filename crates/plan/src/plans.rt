//! The plan's record.
use arrayvec::ArrayVec;
use cut::found::FoundSplit;
use netlist::Netlist;
use standing::change::Change;

pub mod asking;
pub mod changing;
mod checking;
pub mod questions;

// How many changes a plan holds at most.
const ROOM: usize = 64;

/// A netlist, the changes that stand over it, the latest last, and the split that is shown.
#[derive(Drop)]
pub struct Plan<N: Netlist> {
    below: N,
    changes: ArrayVec<Change, ROOM>,
    shown: Option<FoundSplit<N::Price>>,
}
