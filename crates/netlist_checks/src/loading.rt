//! The two bottoms, loaded, and refusing to be.
use crate::comparing::equal;
use bit_rows::BitRows;
use fixtures::told;
use netlist::Netlist;
use pin_tables::PinTables;
use price::values::Wires;
use refusal::{Fault, Place};
use std::process::Abort;

pub(crate) fn tables<'a>(
    rt: &impl Abort,
    modules: usize,
    starts: &'a [u32],
    pins: &'a [u8],
    prices: &'a [Wires],
) -> PinTables<'a, Wires> {
    let mut tables = PinTables::empty();
    assert!(rt; tables.load(modules, starts, pins, prices).is_ok());
    tables
}

pub(crate) fn rows<'a>(
    rt: &impl Abort,
    modules: usize,
    rows: &'a [u64],
    prices: &'a [Wires],
) -> BitRows<'a, Wires> {
    let mut bits = BitRows::empty();
    assert!(rt; bits.load(modules, rows, prices).is_ok());
    bits
}

pub(crate) fn is_refused(rt: &impl Abort, answer: Result<(), Fault>, number: u8, place: Place) {
    equal(rt, told(answer), Some((number, place)));
}

fn is_empty<N: Netlist>(rt: &impl Abort, bottom: &N) {
    equal(rt, bottom.home_count(), 0);
    equal(rt, bottom.net_count(), 0);
}

// Refused, and the bottom, which was empty, stays so.
pub(crate) fn tables_refused<'a>(
    rt: &impl Abort,
    modules: usize,
    starts: &'a [u32],
    pins: &'a [u8],
    prices: &'a [Wires],
    number: u8,
    place: Place,
) {
    let mut tables = PinTables::empty();
    let answer = tables.load(modules, starts, pins, prices);
    is_refused(rt, answer, number, place);
    is_empty(rt, &tables);
}

pub(crate) fn rows_refused<'a>(
    rt: &impl Abort,
    modules: usize,
    rows: &'a [u64],
    prices: &'a [Wires],
    number: u8,
    place: Place,
) {
    let mut bits = BitRows::empty();
    let answer = bits.load(modules, rows, prices);
    is_refused(rt, answer, number, place);
    is_empty(rt, &bits);
}
