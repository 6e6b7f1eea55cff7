//! The three price kinds: their names, and how their prices are drawn.
use crate::random::Random;
use price::Price;
use price::values::{TimersFirst, Widest, Wires};

// From which numbers the prices of one netlist are drawn.
#[derive(Clone, Copy)]
pub(crate) enum Spread {
    // Zeros and ties.
    Few,
    // Mostly different ones.
    Wide,
    // Some of which a few joined pass the greatest number.
    NearStop,
}

// A price kind of which netlists are drawn.
pub(crate) trait Kind: Price {
    const NAME: &'static str;

    // A price out of the spread.
    fn drawn(random: &mut Random, spread: Spread) -> Self;
}

impl Kind for Wires {
    const NAME: &'static str = "wires";

    fn drawn(random: &mut Random, spread: Spread) -> Wires {
        Wires {
            count: drawn_number(random, spread, u64::MAX),
        }
    }
}

impl Kind for TimersFirst {
    const NAME: &'static str = "timers first";

    fn drawn(random: &mut Random, spread: Spread) -> TimersFirst {
        TimersFirst {
            timers: drawn_part(random, spread),
            wires: drawn_part(random, spread),
        }
    }
}

impl Kind for Widest {
    const NAME: &'static str = "widest";

    fn drawn(random: &mut Random, spread: Spread) -> Widest {
        Widest {
            width: drawn_number(random, spread, u64::MAX),
        }
    }
}

impl Spread {
    pub(crate) fn drawn(random: &mut Random) -> Spread {
        match random.below(3) {
            0 => Spread::Few,
            1 => Spread::Wide,
            _ => Spread::NearStop,
        }
    }
}

fn drawn_part(random: &mut Random, spread: Spread) -> u32 {
    u32::try_from(drawn_number(random, spread, u64::from(u32::MAX))).unwrap_or(u32::MAX)
}

// A number up to the stop.
fn drawn_number(random: &mut Random, spread: Spread, stop: u64) -> u64 {
    let small = random.below(3) as u64;
    match spread {
        Spread::Few => small,
        Spread::Wide => random.below(1000) as u64,
        Spread::NearStop => match random.below(3) {
            0 => small,
            1 => (stop / 2).saturating_add(small),
            _ => stop.saturating_sub(small),
        },
    }
}
