//! Loading: every refusal with its place, and what is answered after.
use crate::asked::{nets_are, pins_are, places_are};
use crate::comparing::equal;
use crate::loading::{is_refused, rows, rows_refused, tables, tables_refused};
use fixtures::SEVEN;
use netlist::Netlist;
use price::values::Wires;
use refusal::Place;
use std::process::Abort;
use std::test::Fail;

const ONE: Wires = Wires { count: 1 };

fn sixty_four<N: Netlist>(rt: &impl Abort, bottom: &N) {
    equal(rt, bottom.module_count(), 64);
    equal(rt, bottom.place(63), Some(63));
    equal(rt, bottom.place(64), None);
}

#[test]
fn sixty_four_modules_load(rt: HostRuntime) {
    sixty_four(&rt, &tables(&rt, 64, &[0], &[], &[]));
    sixty_four(&rt, &rows(&rt, 64, &[], &[]));
}

#[test]
fn sixty_five_modules_are_refused(rt: HostRuntime) {
    tables_refused(&rt, 65, &[0], &[], &[], 3, Place::Call);
    rows_refused(&rt, 65, &[], &[], 3, Place::Call);
}

// Nets of the pins 0 and 1, in tables of both forms.
fn starts_of(rt: &HostRuntime, nets: u32) -> Result<Vec<u32>, Fail> {
    let mut starts = Vec::new(rt.alloc());
    for i in 0..=nets {
        starts.push(i.wrapping_mul(2))?;
    }
    Ok(starts)
}

fn pins_of(rt: &HostRuntime, nets: u32) -> Result<Vec<u8>, Fail> {
    let mut pins = Vec::new(rt.alloc());
    for _ in 0..nets {
        pins.push(0)?;
        pins.push(1)?;
    }
    Ok(pins)
}

fn a_thousand_and_twenty_four<N: Netlist>(rt: &impl Abort, bottom: &N) {
    equal(rt, bottom.net_count(), 1024);
    equal(rt, bottom.pin(1023, 1), Some(1));
}

#[test]
fn a_thousand_and_twenty_four_nets_load(rt: HostRuntime) -> Result<(), Fail> {
    let starts = starts_of(&rt, 1024)?;
    let pins = pins_of(&rt, 1024)?;
    let words = vec![in rt.alloc(); 0xC000_0000_0000_0000u64; 1024]?;
    let prices = vec![in rt.alloc(); ONE; 1024]?;
    let tables = tables(
        &rt,
        2,
        starts.as_slice(),
        pins.as_slice(),
        prices.as_slice(),
    );
    a_thousand_and_twenty_four(&rt, &tables);
    let bits = rows(&rt, 2, words.as_slice(), prices.as_slice());
    a_thousand_and_twenty_four(&rt, &bits);
    Ok(())
}

#[test]
fn one_net_more_is_refused(rt: HostRuntime) -> Result<(), Fail> {
    let starts = starts_of(&rt, 1025)?;
    let pins = pins_of(&rt, 1025)?;
    let rows = vec![in rt.alloc(); 0xC000_0000_0000_0000u64; 1025]?;
    let prices = vec![in rt.alloc(); ONE; 1025]?;
    tables_refused(
        &rt,
        2,
        starts.as_slice(),
        pins.as_slice(),
        prices.as_slice(),
        4,
        Place::Call,
    );
    rows_refused(&rt, 2, rows.as_slice(), prices.as_slice(), 4, Place::Call);
    Ok(())
}

#[test]
fn tables_that_disagree(rt: HostRuntime) {
    let one = [ONE];
    tables_refused(&rt, 2, &[0], &[0, 1], &one, 5, Place::Call);
    tables_refused(&rt, 2, &[0, 2, 2], &[0, 1], &one, 5, Place::Call);
    tables_refused(&rt, 2, &[], &[0, 1], &one, 5, Place::Call);
    tables_refused(&rt, 3, &[1, 3], &[0, 1, 2], &one, 5, Place::Call);
    tables_refused(&rt, 2, &[0, 2], &[0, 1, 1], &one, 5, Place::Call);
    rows_refused(&rt, 2, &[], &one, 5, Place::Call);
    rows_refused(&rt, 2, &[3, 3], &one, 5, Place::Call);
}

#[test]
fn nets_with_too_few_pins(rt: HostRuntime) {
    tables_refused(&rt, 2, &[0, 1], &[0], &[ONE], 6, Place::Net(0));
    tables_refused(&rt, 2, &[0, 2, 2], &[0, 1], &[ONE, ONE], 6, Place::Net(1));
    // starts that fall count as too few, and every net is looked at before a pin
    tables_refused(&rt, 2, &[0, 4, 2], &[0, 9], &[ONE, ONE], 6, Place::Net(1));
    rows_refused(
        &rt,
        2,
        &[0xC000_0000_0000_0000, 0x4000_0000_0000_0000],
        &[ONE, ONE],
        6,
        Place::Net(1),
    );
    rows_refused(
        &rt,
        2,
        &[0x2000_0000_0000_0001, 0],
        &[ONE, ONE],
        6,
        Place::Net(1),
    );
}

// A net of two pins and one of three, over three modules.
fn pins_refused(rt: &impl Abort, pins: &[u8], number: u8, net: usize, position: usize) {
    let at = Place::Pin { net, position };
    tables_refused(rt, 3, &[0, 2, 5], pins, &[ONE, ONE], number, at);
}

#[test]
fn pins_of_tables_that_are_not_there_or_repeat(rt: HostRuntime) {
    pins_refused(&rt, &[0, 1, 0, 1, 3], 7, 1, 2);
    pins_refused(&rt, &[0, 1, 2, 1, 2], 8, 1, 2);
    pins_refused(&rt, &[0, 0, 2, 1, 9], 8, 0, 1);
    pins_refused(&rt, &[7, 7, 2, 1, 2], 7, 0, 0);
}

// The same of rows: these can't repeat a pin.
fn bits_refused(rt: &impl Abort, rows: &[u64], net: usize, position: usize) {
    let at = Place::Pin { net, position };
    rows_refused(rt, 3, rows, &[ONE, ONE], 7, at);
}

#[test]
fn pins_of_rows_that_are_not_there(rt: HostRuntime) {
    bits_refused(&rt, &[0xC000_0000_0000_0000, 0xA800_0000_0000_0000], 1, 2);
    bits_refused(&rt, &[0x0000_0000_0000_0003, 0xA000_0000_0000_0000], 0, 0);
}

// Four modules, and the nets {0, 3} at 1 and {1, 2, 3} at 7.
fn two_nets<N: Netlist<Price = Wires>>(rt: &impl Abort, bottom: &N) {
    places_are(rt, bottom, &[0, 1, 2, 3]);
    nets_are(rt, bottom, &[(1, false), (7, false)]);
    pins_are(rt, bottom, 0, &[0, 3]);
    pins_are(rt, bottom, 1, &[1, 2, 3]);
}

#[test]
fn both_bottoms_answer_alike(rt: HostRuntime) {
    let prices = [ONE, SEVEN];
    two_nets(&rt, &tables(&rt, 4, &[0, 2, 5], &[0, 3, 1, 2, 3], &prices));
    two_nets(
        &rt,
        &rows(
            &rt,
            4,
            &[0x9000_0000_0000_0000, 0x7000_0000_0000_0000],
            &prices,
        ),
    );
}

#[test]
fn a_refused_load_leaves_the_bottom(rt: HostRuntime) {
    let prices = [ONE];
    let mut tables = tables(&rt, 2, &[0, 2], &[0, 1], &prices);
    let answer = tables.load(3, &[0, 2], &[0, 9], &prices);
    let at = Place::Pin {
        net: 0,
        position: 1,
    };
    is_refused(&rt, answer, 7, at);
    equal(&rt, tables.home_count(), 2);
    equal(&rt, tables.pin(0, 1), Some(1));
}
