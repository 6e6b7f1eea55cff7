//! Plans over the five-module netlist, and over a chain that has no tables.
//! Each call is asked in a function of its own, over any netlist: what one call promises would else weigh on the proof of the next.
use crate::comparing::equal;
use chain::Chain;
use cut::found::FoundSplit;
use fixtures::five_modules::{PINS, STARTS, WIRES};
use fixtures::{SEVEN, ZERO, number_of, wires};
use netlist::Netlist;
use partition::splitting::split;
use pin_tables::PinTables;
use plan::plans::Plan;
use price::Price;
use price::values::Wires;
use std::process::Abort;

// A strap is accepted.
fn straps<N: Netlist<Price = Wires>>(
    rt: &impl Abort,
    plan: &mut Plan<N>,
    home: usize,
    other: usize,
) {
    equal(rt, plan.strap(home, other), Ok(()));
}

// A strap is refused by this number.
fn no_strap<N: Netlist<Price = Wires>>(
    rt: &impl Abort,
    plan: &mut Plan<N>,
    home: usize,
    other: usize,
    number: u8,
) {
    equal(rt, number_of(plan.strap(home, other)), Some(number));
}

// A mute is accepted.
fn mutes<N: Netlist<Price = Wires>>(rt: &impl Abort, plan: &mut Plan<N>, net: usize) {
    equal(rt, plan.mute(net), Ok(()));
}

// A mute is refused by this number.
fn no_mute<N: Netlist<Price = Wires>>(rt: &impl Abort, plan: &mut Plan<N>, net: usize, number: u8) {
    equal(rt, number_of(plan.mute(net)), Some(number));
}

// A take back is accepted.
fn takes_back<N: Netlist<Price = Wires>>(rt: &impl Abort, plan: &mut Plan<N>) {
    equal(rt, plan.take_back(), Ok(()));
}

// A look shows this.
fn shows<N: Netlist<Price = Wires>>(
    rt: &impl Abort,
    plan: &Plan<N>,
    shown: Option<FoundSplit<Wires>>,
) {
    equal(rt, plan.look(), shown);
}

// A split with these cells finds this.
fn cuts<N: Netlist<Price = Wires>>(
    rt: &impl Abort,
    plan: &mut Plan<N>,
    cells: &mut [Wires],
    sides: u64,
    count: u64,
) {
    equal(rt, plan.split(cells), Ok(wires(sides, count)));
}

// A split with these cells is refused by this number.
fn no_cut<N: Netlist<Price = Wires>>(
    rt: &impl Abort,
    plan: &mut Plan<N>,
    cells: &mut [Wires],
    number: u8,
) {
    equal(rt, number_of(plan.split(cells)), Some(number));
}

// A split of a plan over five modules finds this, and a look shows it.
fn finds<N: Netlist<Price = Wires>>(rt: &impl Abort, plan: &mut Plan<N>, sides: u64, count: u64) {
    cuts(rt, plan, &mut [SEVEN; 5], sides, count);
    shows(rt, plan, Some(wires(sides, count)));
}

// Home modules 2 and 4 are strapped and net 0 is muted: what is refused leaves the split that is shown.
fn refused<N: Netlist<Price = Wires>>(rt: &impl Abort, plan: &mut Plan<N>) {
    no_strap(rt, plan, 4, 2, 12);
    no_mute(rt, plan, 0, 14);
    no_strap(rt, plan, 0, 5, 11);
    no_mute(rt, plan, 5, 13);
    shows(rt, plan, Some(wires(0x4000_0000_0000_0000, 2)));
}

// The five modules' splits: as they are, with 2 and 4 strapped, with net 0 muted too, and with the mute taken back.
fn splits<N: Netlist<Price = Wires>>(rt: &impl Abort, plan: &mut Plan<N>) {
    finds(rt, plan, 0x1800_0000_0000_0000, 3);
    straps(rt, plan, 2, 4);
    shows(rt, plan, None);
    finds(rt, plan, 0x3800_0000_0000_0000, 4);
    mutes(rt, plan, 0);
    finds(rt, plan, 0x4000_0000_0000_0000, 2);
    refused(rt, plan);
    takes_back(rt, plan);
    shows(rt, plan, None);
    finds(rt, plan, 0x3800_0000_0000_0000, 4);
}

// A plan over five modules, from its first look.
fn five_modules<N: Netlist<Price = Wires>>(rt: &impl Abort, plan: &mut Plan<N>) {
    shows(rt, plan, None);
    equal(rt, number_of(plan.take_back()), Some(16));
    splits(rt, plan);
}

#[test]
fn a_plan_over_five_modules(rt: HostRuntime) {
    let mut netlist = PinTables::empty();
    assert!(rt; netlist.load(5, &STARTS, &PINS, &WIRES).is_ok());
    five_modules(&rt, &mut Plan::over(netlist));
}

// Asked as a netlist: the five modules with 2 and 4 strapped and net 3 muted.
fn asked<N: Netlist<Price = Wires>>(rt: &impl Abort, netlist: &N) {
    let counts = (netlist.module_count(), netlist.place(4), netlist.pin(4, 1));
    equal(rt, counts, (4, Some(2), Some(2)));
    let net = (netlist.price(3), netlist.is_muted(3));
    equal(rt, net, (Some(ZERO), Some(true)));
}

// A split of the netlist itself, apart from any plan, finds something.
fn is_split<N: Netlist<Price = Wires>>(rt: &impl Abort, netlist: &N) {
    assert!(rt; split(netlist, &mut [SEVEN; 5]).is_ok());
}

#[test]
fn a_plan_is_a_netlist(rt: HostRuntime) {
    let mut netlist = PinTables::empty();
    assert!(rt; netlist.load(5, &STARTS, &PINS, &WIRES).is_ok());
    let mut plan = Plan::over(netlist);
    straps(&rt, &mut plan, 2, 4);
    mutes(&rt, &mut plan, 3);
    asked(&rt, &plan);
    is_split(&rt, &plan);
}

#[test]
fn sixty_four_changes_stand(rt: HostRuntime) {
    let mut plan = Plan::over(Chain::of(64));
    for net in 0..63 {
        mutes(&rt, &mut plan, net);
    }
    straps(&rt, &mut plan, 0, 63);
    no_strap(&rt, &mut plan, 1, 2, 15);
    no_strap(&rt, &mut plan, 63, 0, 12);
    no_mute(&rt, &mut plan, 62, 14);
    no_mute(&rt, &mut plan, 63, 13);
    takes_back(&rt, &mut plan);
    straps(&rt, &mut plan, 1, 2);
}

#[test]
fn a_chain_is_cut_at_its_end(rt: HostRuntime) {
    let mut plan = Plan::over(Chain::of(4));
    let mut cells = [SEVEN; 5];
    cuts(&rt, &mut plan, &mut cells, 0x1000_0000_0000_0000, 1);
    equal(&rt, cells, [ZERO, ZERO, ZERO, ZERO, SEVEN]);
    straps(&rt, &mut plan, 3, 2);
    cuts(&rt, &mut plan, &mut cells, 0x3000_0000_0000_0000, 1);
    mutes(&rt, &mut plan, 1);
    cuts(&rt, &mut plan, &mut cells, 0x3000_0000_0000_0000, 0);
    straps(&rt, &mut plan, 0, 1);
    straps(&rt, &mut plan, 0, 3);
    no_cut(&rt, &mut plan, &mut cells, 17);
    no_cut(&rt, &mut plan, &mut [SEVEN; 3], 10);
}
