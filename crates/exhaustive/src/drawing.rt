//! Netlists that are drawn, and the straps and mutes that are tried on them.
ghost use Rattle.std.specs.Prelude.{◌<◌};

use crate::kinds::{Kind, Spread};
use crate::random::Random;
use crate::trial::{Net, Trial};
use price::Price;
use std::alloc::{AllocError, Global};

// Straps and mutes to be tried, the first ones first; some name what is not there.
#[derive(Drop)]
pub(crate) struct Tries {
    pub(crate) straps: Vec<(usize, usize)>,
    pub(crate) mutes: Vec<usize>,
}

// A netlist with so many modules and nets; without nets where there are fewer than two modules.
pub(crate) fn drawn_trial<K: Kind>(
    heap: Global,
    random: &mut Random,
    modules: usize,
    nets: usize,
) -> Result<Trial<K>, AllocError> {
    let spread = Spread::drawn(random);
    let mut trial = Trial::of(heap, modules);
    if modules > 1 {
        for _ in 0..nets {
            trial.nets.push(Net {
                pins: drawn_pins(heap, random, modules)?,
                price: K::drawn(random, spread),
            })?;
        }
    }
    Ok(trial)
}

// Two to all of the modules, rising from any of them and round again.
fn drawn_pins(heap: Global, random: &mut Random, modules: usize) -> Result<Vec<usize>, AllocError>
    requires { 1 < modules }
{
    let wanted = random.below(modules - 1) + 2;
    let first = random.below(modules);
    let mut pins = Vec::new(heap);
    for k in 0..modules {
        // Each of those that are left is as likely as the next.
        if random.below(modules - k) < wanted.saturating_sub(pins.len()) {
            pins.push(first.wrapping_add(k) % modules)?;
        }
    }
    Ok(pins)
}

// Up to seven straps, and up to six mutes.
pub(crate) fn drawn_tries<P: Price>(
    heap: Global,
    random: &mut Random,
    trial: &Trial<P>,
) -> Result<Tries, AllocError> {
    let mut tries = Tries {
        straps: Vec::new(heap),
        mutes: Vec::new(heap),
    };
    for _ in 0..random.below(8) {
        let a = drawn_module(random, trial);
        tries.straps.push((a, drawn_module(random, trial)))?;
    }
    for _ in 0..random.below(7) {
        tries.mutes.push(drawn_net(random, trial))?;
    }
    Ok(tries)
}

// The number of a home module, or one that is not there.
pub(crate) fn drawn_module<P: Price>(random: &mut Random, trial: &Trial<P>) -> usize {
    drawn_index(random, trial.modules)
}

// The number of a net, or one that is not there.
pub(crate) fn drawn_net<P: Price>(random: &mut Random, trial: &Trial<P>) -> usize {
    drawn_index(random, trial.nets.len())
}

// A number below the count, or at times the count itself or 65,536, which cut to a byte or two would be 0.
fn drawn_index(random: &mut Random, count: usize) -> usize {
    let number = random.below(count.saturating_add(2));
    if number > count { 65_536 } else { number }
}
