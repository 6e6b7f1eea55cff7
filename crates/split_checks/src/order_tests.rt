//! Orders: what is written, and what is refused.
use crate::comparing::equal;
use crate::loading::tables;
use fixtures::five_modules::{PINS, STARTS, WIRES};
use fixtures::{SEVEN, ZERO, told};
use netlist::Netlist;
use partition::ordering::order;
use price::values::Wires;
use refusal::Place;
use std::process::Abort;

// The five modules are taken in turn, and a cell for each is zero.
fn takes_five_in_turn<N: Netlist<Price = Wires>>(rt: &impl Abort, netlist: &N) {
    let mut cells = [SEVEN; 6];
    let mut bytes = [9u8; 7];
    let last = order(netlist, &mut cells, &mut bytes);
    equal(rt, last, Ok(Wires { count: 5 }));
    equal(rt, bytes, [0, 1, 2, 3, 4, 9, 9]);
    equal(rt, cells, [ZERO, ZERO, ZERO, ZERO, ZERO, SEVEN]);
}

#[test]
fn the_order_of_five_modules(rt: HostRuntime) {
    takes_five_in_turn(&rt, &tables(&rt, 5, &STARTS, &PINS, &WIRES));
}

fn refuses<N: Netlist<Price = Wires>>(
    rt: &impl Abort,
    netlist: &N,
    cells: &mut [Wires],
    bytes: &mut [u8],
    number: u8,
    place: Place,
) {
    equal(
        rt,
        told(order(netlist, cells, bytes)),
        Some((number, place)),
    );
}

#[test]
fn orders_refused(rt: HostRuntime) {
    let netlist = tables(&rt, 5, &STARTS, &PINS, &WIRES);
    let mut bytes = [9u8; 5];
    let mut cells = [SEVEN; 5];
    let mut four = [SEVEN; 4];
    refuses(&rt, &netlist, &mut four, &mut bytes, 10, Place::Table(1));
    refuses(&rt, &netlist, &mut cells, &mut [9; 4], 10, Place::Table(2));
    refuses(&rt, &netlist, &mut four, &mut [9; 4], 10, Place::Table(1));
    equal(&rt, cells, [SEVEN; 5]);
    equal(&rt, bytes, [9; 5]);
}

#[test]
fn one_module_has_no_order(rt: HostRuntime) {
    let netlist = tables(&rt, 1, &[0], &[], &[]);
    refuses(&rt, &netlist, &mut [SEVEN; 1], &mut [9; 1], 17, Place::Call);
    refuses(&rt, &netlist, &mut [], &mut [9; 1], 10, Place::Table(1));
}
