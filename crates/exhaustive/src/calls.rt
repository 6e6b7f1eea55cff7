//! Lists of calls on a plan, drawn.
use crate::cells::cells_before;
use crate::drawing::{drawn_module, drawn_net};
use crate::random::Random;
use crate::trial::Trial;
use plan::calls::Asked;
use price::Price;
use std::alloc::{AllocError, Global};

// A call on a plan; a split with so many cells.
#[derive(Clone, Copy)]
pub(crate) enum Call {
    Strap(usize, usize),
    Mute(usize),
    TakeBack,
    Split(usize),
    Look,
}

impl Call {
    // The call as the product is asked it.
    pub(crate) fn asked<P: Price>(self, heap: Global) -> Result<Asked<P>, AllocError> {
        Ok(match self {
            Call::Strap(a, b) => Asked::Strap(a, b),
            Call::Mute(net) => Asked::Mute(net),
            Call::TakeBack => Asked::TakeBack,
            Call::Split(cells) => Asked::Split(cells_before(heap, cells)?),
            Call::Look => Asked::Look,
        })
    }

    // A call of any sort over the trial's netlist. Some splits have too few cells.
    fn drawn<P: Price>(random: &mut Random, trial: &Trial<P>) -> Call {
        match random.below(9) {
            0 | 1 => {
                let a = drawn_module(random, trial);
                Call::Strap(a, drawn_module(random, trial))
            }
            2 | 3 => Call::Mute(drawn_net(random, trial)),
            4 => Call::TakeBack,
            5 => Call::Split(random.below(trial.modules.saturating_add(1))),
            6 => Call::Split(trial.modules.saturating_add(1)),
            _ => Call::Look,
        }
    }
}

// Adds so many calls of any sort.
pub(crate) fn drawn_calls<P: Price>(
    random: &mut Random,
    trial: &Trial<P>,
    count: usize,
    calls: &mut Vec<Call>,
) -> Result<(), AllocError> {
    for _ in 0..count {
        calls.push(Call::drawn(random, trial))?;
    }
    Ok(())
}

// Adds a mute of each net with a split or a look after it: where there are more than 64 nets, they do not all find room.
pub(crate) fn filling_calls<P: Price>(
    trial: &Trial<P>,
    calls: &mut Vec<Call>,
) -> Result<(), AllocError> {
    for net in 0..trial.nets.len() {
        calls.push(Call::Mute(net))?;
        calls.push(if net % 2 == 0 {
            Call::Split(trial.modules)
        } else {
            Call::Look
        })?;
    }
    Ok(())
}
