//! The cases of each batch, each made anew from its number.
use crate::calls::{Call, drawn_calls, filling_calls};
use crate::drawing::{Tries, drawn_trial, drawn_tries};
use crate::five::{five_modules, tries_of};
use crate::kinds::Kind;
use crate::random::Random;
use crate::run_check::Run;
use crate::trial::Trial;
use price::Price;
use std::alloc::{AllocError, Global};

// Small netlists are drawn with 0 to 7 modules, in turn.
const MODULE_COUNTS: u32 = 8;

// And for 0 to 10 nets.
const NET_COUNTS: u32 = 11;

// A round of cases has each number of modules once with each number of nets.
const ROUND: u32 = MODULE_COUNTS * NET_COUNTS;

// How many small netlists of each kind are drawn.
pub(crate) const DRAWN: u32 = ROUND * 10;

// How many lists of calls are run in each kind over such netlists, and of how many calls: a round over the netlists alone,
// one over straps and mutes, and one over straps and mutes with room for fewer answers.
const LISTS: u32 = ROUND * 3;

const CALLS: usize = 40;

// The first round over straps and mutes, also of the lists that fill the plan.
const FIRST_LAYERED: u32 = 1;

// The first round with room for fewer answers, and for how many.
const FIRST_SHORT: u32 = 2;

const SHORT_ROOM: usize = 30;

// How many lists of calls fill the plan: over each number of modules from 2 to 7 one over the netlist alone and one over straps and mutes.
// Before and after the calls that fill it as many come as above.
const LONG_LISTS: u32 = LONG_ROUND * 2;

const LONG_ROUND: u32 = 6;

const LONG_NETS: usize = 70;

// A netlist, and the straps and mutes that are tried on it.
#[derive(Drop)]
pub(crate) struct NetlistCase<P> {
    pub(crate) trial: Trial<P>,
    pub(crate) tries: Tries,
}

// A netlist, and the calls that are run over it.
#[derive(Drop)]
pub(crate) struct RunCase<P> {
    pub(crate) trial: Trial<P>,
    // The straps and mutes that are tried below the plan; absent where it is over the netlist alone.
    pub(crate) below: Option<Tries>,
    pub(crate) run: Run<P>,
}

// A batch of lists of calls.
#[derive(Clone, Copy)]
pub(crate) enum RunBatch {
    // Calls of any sort.
    Mixed,
    // Such calls, and between them those that fill the plan.
    Filling,
}

// The size of a netlist that is drawn, and the round of cases that it is in. Below two modules it has no nets, whatever is said here.
#[derive(Clone, Copy)]
struct Size {
    modules: usize,
    nets: usize,
    round: u32,
}

// The five-module netlist at these prices, with the straps and mutes of the case.
pub(crate) fn five_case<P: Price>(
    heap: Global,
    prices: &[P; 5],
    number: u32,
) -> Result<NetlistCase<P>, AllocError> {
    Ok(NetlistCase {
        trial: five_modules(heap, prices)?,
        tries: tries_of(heap, number)?,
    })
}

// A netlist that is drawn.
pub(crate) fn drawn_case<K: Kind>(heap: Global, number: u32) -> Result<NetlistCase<K>, AllocError> {
    let mut random = Random::seeded(u64::from(number));
    let Size { modules, nets, .. } = Size::small(number);
    let trial = drawn_trial(heap, &mut random, modules, nets)?;
    let tries = drawn_tries(heap, &mut random, &trial)?;
    Ok(NetlistCase { trial, tries })
}

// A case of a batch of lists of calls.
pub(crate) fn run_case<K: Kind>(
    heap: Global,
    batch: RunBatch,
    number: u32,
) -> Result<RunCase<K>, AllocError> {
    let mut random = Random::seeded(u64::from(number));
    let Size {
        modules,
        nets,
        round,
    } = batch.size(number);
    let trial = drawn_trial(heap, &mut random, modules, nets)?;
    let below = drawn_below(heap, &mut random, &trial, round)?;
    let calls = batch.calls(heap, &mut random, &trial)?;
    let room = if round < FIRST_SHORT {
        calls.len()
    } else {
        SHORT_ROOM
    };
    Ok(RunCase {
        trial,
        below,
        run: Run::of(heap, calls, room)?,
    })
}

impl RunBatch {
    pub(crate) fn name(self) -> &'static str {
        match self {
            RunBatch::Mixed => "runs",
            RunBatch::Filling => "long runs",
        }
    }

    pub(crate) fn count(self) -> u32 {
        match self {
            RunBatch::Mixed => LISTS,
            RunBatch::Filling => LONG_LISTS,
        }
    }

    // The size of a case's netlist.
    fn size(self, number: u32) -> Size {
        match self {
            RunBatch::Mixed => Size::small(number),
            RunBatch::Filling => Size {
                modules: (number % LONG_ROUND) as usize + 2,
                nets: LONG_NETS,
                round: number / LONG_ROUND,
            },
        }
    }

    // Calls of any sort; where they are to fill the plan, those that do so and as many again of any sort after them.
    fn calls<P: Price>(
        self,
        heap: Global,
        random: &mut Random,
        trial: &Trial<P>,
    ) -> Result<Vec<Call>, AllocError> {
        let mut calls = Vec::new(heap);
        drawn_calls(random, trial, CALLS, &mut calls)?;
        if matches!(self, RunBatch::Filling) {
            filling_calls(trial, &mut calls)?;
            drawn_calls(random, trial, CALLS, &mut calls)?;
        }
        Ok(calls)
    }
}

impl Size {
    // Each number of modules in turn, then each number of nets.
    fn small(number: u32) -> Size {
        Size {
            modules: (number % MODULE_COUNTS) as usize,
            nets: (number / MODULE_COUNTS % NET_COUNTS) as usize,
            round: number / ROUND,
        }
    }
}

// The straps and mutes that are tried below a run; absent where it is over the netlist alone.
fn drawn_below<P: Price>(
    heap: Global,
    random: &mut Random,
    trial: &Trial<P>,
    round: u32,
) -> Result<Option<Tries>, AllocError> {
    if round < FIRST_LAYERED {
        return Ok(None);
    }
    Ok(Some(drawn_tries(heap, random, trial)?))
}
