//! Prices: what joins, stops and compares how.
use crate::comparing::equal;
use price::Price;
use price::values::{TimersFirst, Widest, Wires};
use std::fmt::Debug;
use std::process::Abort;

const MOST: u32 = 4294967295;

// Two prices joined.
fn joins<P: Price + PartialEq + Debug>(rt: &impl Abort, price: P, other: P, both: P) {
    equal(rt, price.join(other), both);
}

#[test]
fn wires_stop_at_the_greatest(rt: HostRuntime) {
    let near = Wires {
        count: u64::MAX - 1,
    };
    let full = Wires { count: u64::MAX };
    joins(&rt, near, Wires { count: 1 }, full);
    joins(&rt, near, Wires { count: 2 }, full);
    equal(&rt, Wires::from_field(MOST).print_word(), 4294967295);
    assert!(rt; near.less(full) && !near.less(near));
}

#[test]
fn timers_that_stop_take_the_wires_along(rt: HostRuntime) {
    let low = TimersFirst {
        timers: MOST - 1,
        wires: 9,
    };
    let high = TimersFirst {
        timers: MOST,
        wires: 0,
    };
    let one = TimersFirst {
        timers: 1,
        wires: 0,
    };
    let low_and_one = TimersFirst {
        timers: MOST,
        wires: 9,
    };
    let high_and_one = TimersFirst {
        timers: MOST,
        wires: MOST,
    };
    assert!(rt; low.less(high));
    joins(&rt, low, one, low_and_one);
    joins(&rt, high, one, high_and_one);
    assert!(rt; !high.join(one).less(low.join(one)));
}

#[test]
fn wires_beside_timers_stop_alone(rt: HostRuntime) {
    let full = TimersFirst {
        timers: 7,
        wires: MOST,
    };
    let one_each = TimersFirst {
        timers: 1,
        wires: 1,
    };
    let both = TimersFirst {
        timers: 8,
        wires: MOST,
    };
    joins(&rt, full, one_each, both);
    let few = TimersFirst {
        timers: 3,
        wires: 4,
    };
    equal(&rt, TimersFirst::from_field(0x0003_0004), few);
    equal(&rt, few.print_word(), 0x0000_0003_0000_0004);
}

#[test]
fn the_widest_is_the_greater(rt: HostRuntime) {
    let narrow = Widest { width: 3 };
    let wide = Widest { width: 8 };
    joins(&rt, narrow, wide, wide);
    joins(&rt, wide, narrow, wide);
    equal(&rt, Widest::zero().print_word(), 0);
}

#[test]
fn kinds_have_their_numbers(rt: HostRuntime) {
    equal(&rt, Wires::PAGE_NUMBER, 1);
    equal(&rt, TimersFirst::PAGE_NUMBER, 2);
    equal(&rt, Widest::PAGE_NUMBER, 3);
}
