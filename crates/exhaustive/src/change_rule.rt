//! The rules of straps and mutes, read directly: which is refused, by what stands.
use crate::sides::{Sides, division_count};
use crate::trial::Trial;
use price::Price;

impl<P: Price> Trial<P> {
    // The number by which a strap is refused: 11 where one of the two is not there, 12 where they are together already.
    pub(crate) fn strap_refusal(&self, a: usize, b: usize) -> Option<u8> {
        if a >= self.modules || b >= self.modules {
            return Some(11);
        }
        self.are_together(a, b).then_some(12)
    }

    // The number by which a mute is refused: 13 where the net is not there, 14 where it is muted already.
    pub(crate) fn mute_refusal(&self, net: usize) -> Option<u8> {
        if net >= self.nets.len() {
            return Some(13);
        }
        self.muted.contains(&net).then_some(14)
    }

    // Whether no division that keeps the straps parts the two. All modules on one board is a division here.
    fn are_together(&self, a: usize, b: usize) -> bool {
        !(0..division_count(self.modules))
            .map(Sides::numbered)
            .any(|sides| self.keeps_straps(sides) && sides.parts(a, b))
    }

    // Whether both ends of each strap are on one board.
    pub(crate) fn keeps_straps(&self, sides: Sides) -> bool {
        self.straps.iter().all(|(a, b)| !sides.parts(*a, *b))
    }
}
