//! A page and a script answered into tables, cells and a buffer that are handed in.
use crate::comparing::equal;
use fixtures::small_page::SMALL;
use fixtures::{SEVEN, ZERO, told};
use loading::load_unpacked;
use page::counts::Counts;
use pin_tables::PinTables;
use price::values::Wires;
use printing::answering::answer_page;
use refusal::Place;
use std::process::Abort;

// A buffer that is too short for what is answered is told so, and all that is handed in stays.
fn too_short(rt: &impl Abort, page: &[u8], script: &[u8], out: &mut [u8]) {
    let mut starts = [7u32; 4];
    let mut pins = [7u8; 5];
    let mut prices = [SEVEN; 3];
    let mut cells = [SEVEN; 4];
    let answer = answer_page(
        page,
        script,
        &mut starts,
        &mut pins,
        &mut prices,
        &mut cells,
        out,
    );
    equal(rt, told(answer), Some((10, Place::Table(1))));
    equal(rt, starts, [7; 4]);
    equal(rt, pins, [7; 5]);
    equal(rt, prices, [SEVEN; 3]);
    equal(rt, cells, [SEVEN; 4]);
}

#[test]
fn a_short_buffer_leaves_all(rt: HostRuntime) {
    let mut line = [7u8; 36];
    too_short(&rt, &SMALL, b"p", &mut line);
    too_short(&rt, &SMALL[..15], b"p", &mut line);
    equal(&rt, line, [7; 36]);
    let mut lines = [7u8; 73];
    too_short(&rt, &SMALL, b"p\np", &mut lines);
    equal(&rt, lines, [7; 73]);
}

#[test]
fn a_buffer_of_a_line_is_filled(rt: HostRuntime) {
    let mut starts = [7u32; 4];
    let mut pins = [7u8; 5];
    let mut prices = [SEVEN; 3];
    let mut cells = [SEVEN; 4];
    let mut out = [7u8; 37];
    let answer = answer_page(
        &SMALL,
        b"p",
        &mut starts,
        &mut pins,
        &mut prices,
        &mut cells,
        &mut out,
    );
    equal(&rt, answer, Ok(37));
    equal(
        &rt,
        out.as_slice(),
        b"ok 2000000000000000 0000000000000003\n".as_slice(),
    );
    equal(&rt, starts, [0, 2, 4, 7]);
    equal(&rt, pins, [0, 1, 1, 2, 7]);
    equal(&rt, prices, [Wires { count: 5 }, Wires { count: 3 }, SEVEN]);
    equal(&rt, cells, [ZERO, ZERO, ZERO, SEVEN]);
}

// How loading tables of one start each is refused, by these counts.
fn refused(rt: &impl Abort, modules: usize, nets: usize, number: u8, place: Place) {
    let mut tables = PinTables::<Wires>::empty();
    let counts = Counts {
        modules,
        nets,
        pins: 0,
    };
    let answer = load_unpacked(&mut tables, counts, &[0], &[], &[]);
    equal(rt, told(answer), Some((number, place)));
}

#[test]
fn counts_are_told_before_short_tables(rt: HostRuntime) {
    refused(&rt, 65, 1, 3, Place::Call);
    refused(&rt, 65, 1025, 3, Place::Call);
    refused(&rt, 64, 1025, 4, Place::Call);
    refused(&rt, 64, 1024, 10, Place::Table(1));
}
