//! The rule of orders, read directly: always the module most pulled by those taken.
use crate::sides::{Sides, division_count};
use crate::trial::{Net, Trial, are_equal};
use price::Price;
use refusal::Fault;
use std::alloc::{AllocError, Global};

impl<P> Net<P> {
    // Whether the net pulls a module toward those taken: it has a pin at the module, one among those taken, and none elsewhere.
    fn pulls(&self, module: usize, taken: &[usize]) -> bool {
        self.pins.contains(&module)
            && self.pins.iter().any(|pin| taken.contains(pin))
            && self
                .pins
                .iter()
                .all(|pin| *pin == module || taken.contains(pin))
    }

    // Whether the net has a pin at a module, and one elsewhere.
    fn leaves(&self, module: usize) -> bool {
        self.pins.contains(&module) && self.pins.iter().any(|pin| *pin != module)
    }
}

impl<P: Price> Trial<P> {
    // The order of the modules: it begins with module 0.
    pub(crate) fn order(&self, heap: Global) -> Result<Vec<usize>, AllocError> {
        let mut taken = Vec::new(heap);
        if self.modules > 0 {
            taken.push(0)?;
        }
        for _ in 1..self.modules {
            if let Some(next) = self.most_pulled(taken.as_slice()) {
                taken.push(next)?;
            }
        }
        Ok(taken)
    }

    // The module that waits and is most pulled by those taken, the lowest on equal pulls.
    fn most_pulled(&self, taken: &[usize]) -> Option<usize> {
        let mut best: Option<(usize, P)> = None;
        for module in 0..self.modules {
            if !taken.contains(&module) {
                let pull = self.pull(module, taken);
                best = match best {
                    Some((earlier, most)) if !most.less(pull) => Some((earlier, most)),
                    _ => Some((module, pull)),
                };
            }
        }
        let (module, _) = best?;
        Some(module)
    }

    // The pull of a module toward those taken.
    fn pull(&self, module: usize, taken: &[usize]) -> P {
        self.joined(|net| net.pulls(module, taken))
    }

    // The price of parting off a module alone.
    fn price_alone(&self, module: usize) -> P {
        self.joined(|net| net.leaves(module))
    }

    // Whether some division that parts these two is cheaper than the price.
    fn is_undercut(&self, a: usize, b: usize, price: P) -> bool {
        (0..division_count(self.modules)).map(Sides::numbered).any(|sides| sides.parts(a, b)
            && self.true_price(sides).less(price))
    }

    // Whether this price may be answered with this order, or the refusal 17 where there are fewer than two modules.
    pub(crate) fn allows_order(&self, order: &[usize], answer: Result<P, Fault>) -> bool {
        match (order, answer) {
            ([.., next_to_last, last], Ok(price)) => are_equal(price, self.price_alone(*last))
                && !self.is_undercut(*next_to_last, *last, price),
            ([] | [_], Err(fault)) => fault.number() == 17,
            _ => false,
        }
    }
}
