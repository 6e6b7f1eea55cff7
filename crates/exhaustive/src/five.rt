//! The five-module netlist, with every choice of its pairs as straps and of its nets as mutes.
use crate::drawing::Tries;
use crate::trial::{Net, Trial};
use fixtures::five_modules::{PINS, STARTS};
use price::Price;
use std::alloc::{AllocError, Global};

// Every choice of the pairs, with every choice of the nets.
pub(crate) const CASES: u32 = PAIR_CHOICES * NET_CHOICES;

// Each of ten pairs is chosen or not.
const PAIR_CHOICES: u32 = 1 << 10;

// Each of five nets is chosen or not.
const NET_CHOICES: u32 = 1 << 5;

const MODULES: usize = 5;

const PAIRS: [(usize, usize); 10] = [
    (0, 1),
    (0, 2),
    (0, 3),
    (0, 4),
    (1, 2),
    (1, 3),
    (1, 4),
    (2, 3),
    (2, 4),
    (3, 4),
];

const NETS: [usize; 5] = [0, 1, 2, 3, 4];

// The netlist, at these prices.
pub(crate) fn five_modules<P: Price>(
    heap: Global,
    prices: &[P; 5],
) -> Result<Trial<P>, AllocError> {
    let mut trial = Trial::of(heap, MODULES);
    let ends = STARTS.iter().skip(1);
    for ((from, to), price) in STARTS.iter().zip(ends).zip(prices) {
        let pins = PINS.iter().take(*to as usize).skip(*from as usize);
        trial.nets.push(Net {
            pins: pins.map(|pin| usize::from(*pin)).collect(heap)?,
            price: *price,
        })?;
    }
    Ok(trial)
}

// The straps and mutes of a case.
pub(crate) fn tries_of(heap: Global, case: u32) -> Result<Tries, AllocError> {
    Ok(Tries {
        straps: chosen(heap, &PAIRS, case % PAIR_CHOICES)?,
        mutes: chosen(heap, &NETS, case / PAIR_CHOICES)?,
    })
}

// Those of the items whose bit is 1, the first item's bit the last.
fn chosen<T: Copy>(heap: Global, items: &[T], choice: u32) -> Result<Vec<T>, AllocError> {
    let mut chosen = Vec::new(heap);
    let mut rest = choice;
    for item in items {
        if rest % 2 == 1 {
            chosen.push(*item)?;
        }
        rest /= 2;
    }
    Ok(chosen)
}
