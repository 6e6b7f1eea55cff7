//! The rule of splits, read directly: every lawful division is tried.
use crate::sides::{Sides, division_count};
use crate::trial::{Trial, are_equal};
use cut::found::FoundSplit;
use price::Price;
use refusal::Fault;

impl<P: Price> Trial<P> {
    // Whether `split` may answer this: a lawful split at its true price that no lawful split undercuts,
    // or the refusal 17 where no split is lawful.
    pub(crate) fn allows(&self, answer: Result<FoundSplit<P>, Fault>) -> bool {
        match (self.least_price(), answer) {
            (None, Err(fault)) => fault.number() == 17,
            (Some(least), Ok(found)) => {
                let sides = Sides { word: found.sides };
                self.is_lawful(sides)
                    && are_equal(found.price, self.true_price(sides))
                    && are_equal(found.price, least)
            }
            _ => false,
        }
    }

    // Whether a division may be answered: home module 0 on A, some module on B, no bit past the last module,
    // and both ends of each strap on one board.
    fn is_lawful(&self, sides: Sides) -> bool {
        !sides.is_on_b(0)
            && sides.word != 0
            && sides.word << self.modules.min(63) == 0
            && self.keeps_straps(sides)
    }

    // The least price of a lawful division.
    fn least_price(&self) -> Option<P> {
        let mut least: Option<P> = None;
        for number in 0..division_count(self.modules) {
            let sides = Sides::numbered(number);
            if self.is_lawful(sides) {
                least = Some(lesser(least, self.true_price(sides)));
            }
        }
        least
    }
}

// The lesser of two prices, of which the first may be absent.
fn lesser<P: Price>(least: Option<P>, price: P) -> P {
    match least {
        Some(least) if !price.less(least) => least,
        _ => price,
    }
}
