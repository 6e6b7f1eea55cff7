//! Calls on a plan and their answers, as values.
use cut::found::FoundSplit;
use refusal::Fault;

/// A call on a plan. A split brings the row of cells that it is handed.
#[derive(Drop)]
pub enum Asked<P> {
    Strap(usize, usize),
    Mute(usize),
    TakeBack,
    Split(Vec<P>),
    Look,
}

/// What a call answers.
#[derive(Clone, Copy, PartialEq, Eq, Debug)]
pub enum Answer<P> {
    /// A change or take back was accepted.
    Done,
    /// The call was refused.
    Refused(Fault),
    /// A split was found, or is shown.
    Found(FoundSplit<P>),
    /// Nothing is shown.
    Absent,
}
