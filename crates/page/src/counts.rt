//! What a page counts.

/// The modules and nets of a page, and the pins of all its nets.
#[derive(Clone, Copy, PartialEq, Eq, Debug)]
pub struct Counts {
    pub modules: usize,
    pub nets: usize,
    pub pins: usize,
}
