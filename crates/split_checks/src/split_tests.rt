//! Splits: sides words and prices of the five-module netlist in each kind, and what is refused.
use crate::comparing::equal;
use crate::loading::tables;
use cut::found::FoundSplit;
use fixtures::five_modules::{PINS, STARTS, TIMERS_FIRST, WIDEST, WIRES};
use fixtures::{SEVEN, ZERO, number_of, told, wires};
use layers::mute::MuteLayer;
use layers::strap::StrapLayer;
use netlist::Netlist;
use partition::splitting::split;
use price::values::{TimersFirst, Widest, Wires};
use refusal::Place;
use std::process::Abort;

// A netlist of five home modules is split so, and a cell for each is zero.
fn finds<N: Netlist<Price = Wires>>(rt: &impl Abort, netlist: &N, sides: u64, count: u64) {
    let mut cells = [SEVEN; 6];
    equal(rt, split(netlist, &mut cells), Ok(wires(sides, count)));
    equal(rt, cells, [ZERO, ZERO, ZERO, ZERO, ZERO, SEVEN]);
}

#[test]
fn five_modules_in_wires(rt: HostRuntime) {
    let netlist = tables(&rt, 5, &STARTS, &PINS, &WIRES);
    finds(&rt, &netlist, 0x1800_0000_0000_0000, 3);
    let mut strapped = StrapLayer::over(netlist);
    equal(&rt, strapped.strap(2, 4), Ok(()));
    finds(&rt, &strapped, 0x3800_0000_0000_0000, 4);
    let mut muted = MuteLayer::over(strapped);
    equal(&rt, muted.mute(0), Ok(()));
    finds(&rt, &muted, 0x4000_0000_0000_0000, 2);
}

#[test]
fn five_modules_in_widest(rt: HostRuntime) {
    let netlist = tables(&rt, 5, &STARTS, &PINS, &WIDEST);
    let found = FoundSplit {
        sides: 0x1800_0000_0000_0000,
        price: Widest { width: 2 },
    };
    equal(
        &rt,
        split(&netlist, &mut [Widest { width: 7 }; 5]),
        Ok(found),
    );
}

#[test]
fn five_modules_in_timers_first(rt: HostRuntime) {
    let netlist = tables(&rt, 5, &STARTS, &PINS, &TIMERS_FIRST);
    let found = FoundSplit {
        sides: 0x4000_0000_0000_0000,
        price: TimersFirst {
            timers: 0,
            wires: 5,
        },
    };
    equal(
        &rt,
        split(
            &netlist,
            &mut [TimersFirst {
                timers: 7,
                wires: 7,
            }; 5],
        ),
        Ok(found),
    );
}

#[test]
fn three_modules_without_nets(rt: HostRuntime) {
    let netlist = tables(&rt, 3, &[0], &[], &[]);
    equal(
        &rt,
        split(&netlist, &mut [SEVEN; 3]),
        Ok(wires(0x2000_0000_0000_0000, 0)),
    );
}

#[test]
fn splits_refused(rt: HostRuntime) {
    let netlist = tables(&rt, 5, &STARTS, &PINS, &WIRES);
    let mut cells = [SEVEN; 4];
    let answer = split(&netlist, &mut cells);
    equal(&rt, told(answer), Some((10, Place::Table(1))));
    equal(&rt, cells, [SEVEN; 4]);
}

#[test]
fn one_group_has_no_split(rt: HostRuntime) {
    let netlist = tables(&rt, 1, &[0], &[], &[]);
    let mut cells = [SEVEN; 1];
    equal(&rt, number_of(split(&netlist, &mut cells)), Some(17));
    equal(&rt, number_of(split(&netlist, &mut [])), Some(10));
    equal(&rt, cells, [SEVEN; 1]);
}
