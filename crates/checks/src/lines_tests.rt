//! The line of a refused page.
use crate::comparing::equal;
use fixtures::told;
use lines::writing::{Line, write_line};
use refusal::{Fault, Place};
use std::process::Abort;

// The line of a page that is refused for a fault takes this many bytes, and the buffer then holds these.
fn line_takes(rt: &impl Abort, fault: Fault, out: &mut [u8], count: usize, then: &[u8]) {
    equal(rt, write_line(Line::PageRefused { fault }, out), Ok(count));
    equal(rt, &*out, then);
}

#[test]
fn a_refused_page_has_its_line(rt: HostRuntime) {
    let mut out = [b'.'; 40];
    let after = Fault::AfterLastNet { bit: 127 };
    line_takes(
        &rt,
        after,
        &mut out,
        17,
        b"page no 9 at 127\n.......................",
    );
    let ends = Fault::PageEnds { bit: 0 };
    line_takes(
        &rt,
        ends,
        &mut out,
        15,
        b"page no 1 at 0\n7\n.......................",
    );
}

#[test]
fn the_longest_line_fits(rt: HostRuntime) {
    let mut out = [b'.'; 37];
    let fault = Fault::TooShort { table: usize::MAX };
    line_takes(
        &rt,
        fault,
        &mut out,
        35,
        b"page no 10 at 18446744073709551615\n..",
    );
}

#[test]
fn a_short_buffer_is_refused_and_stays(rt: HostRuntime) {
    let mut out = [b'.'; 36];
    let fault = Fault::PageEnds { bit: 0 };
    equal(
        &rt,
        told(write_line(Line::PageRefused { fault }, &mut out)),
        Some((10, Place::Table(1))),
    );
    equal(&rt, &out, &[b'.'; 36]);
}
