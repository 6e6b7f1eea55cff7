//! A split as it is answered.

/// The sides word of a split over home modules, and its price.
#[derive(Clone, Copy, PartialEq, Eq, Debug)]
pub struct FoundSplit<P> {
    pub sides: u64,
    pub price: P,
}
