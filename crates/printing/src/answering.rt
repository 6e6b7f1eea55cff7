//! A page and a script answered.
ghost use Rattle.std.specs.Prelude.{◌≡◌, ◌≤◌, length, None, nat_lt};
ghost use Rattle.page.specs.Faults.{page_fault, unpack_fault};
ghost use Rattle.printing.specs.PageRuns.{AnswerPage, ScriptOn, script_room};

use crate::limits::SCRIPT_MOST;
use lines::LINE_ROOM;
use lines::writing::{Line, write_line};
use loading::load_unpacked;
use page::checked::{CheckedPage, check_page};
use page::counts::Counts;
use pin_tables::PinTables;
use price::Price;
use refusal::Fault;
use script::scripts::line_count;
use session::whole_script::run_script;

/// Unpacks a page into the tables, runs a script on a new plan over its netlist, and writes what the program prints. Answers how many bytes that took; later bytes stay.
/// A refused page is answered by its line alone, as are tables that are too short for it, and then a script of more than 65,536 bytes by its line alone.
/// Refused: a buffer of fewer than 37 bytes, or fewer than 37 for each line of a script that is run (10, table 1). Then the tables, the cells and the buffer stay as they were.
pub fn answer_page<P: Price>(
    page: &[u8],
    script: &[u8],
    starts: &mut [u32],
    pins: &mut [u8],
    prices: &mut [P],
    cells: &mut [P],
    out: &mut [u8],
) -> Result<usize, Fault>
    ensures { AnswerPage P.kind page.now script.now starts.old starts.new pins.old pins.new prices.old prices.new
        cells.old cells.new out.old out.new result }
{
    match check_page::<P>(page) {
        Ok(page) => answer_checked(&page, script, starts, pins, prices, cells, out),
        Err(fault) => write_line(Line::PageRefused { fault }, out),
    }
}

// The same of a page that has passed its checks. Nothing is written into the tables before the buffer is known to suffice.
pub(crate) fn answer_checked<P: Price>(
    page: &CheckedPage<'_>,
    script: &[u8],
    starts: &mut [u32],
    pins: &mut [u8],
    prices: &mut [P],
    cells: &mut [P],
    out: &mut [u8],
) -> Result<usize, Fault>
    requires { page_fault page.now.bytes.now P.kind.number ≡ None }
    ensures { AnswerPage P.kind page.now.bytes.now script.now starts.old starts.new pins.old pins.new prices.old prices.new
        cells.old cells.new out.old out.new result }
{
    if let Err(fault) = page.check_room(starts, pins, prices) {
        return write_line(Line::PageRefused { fault }, out);
    }
    if out.len() < room_for(script) {
        return Err(Fault::TooShort { table: 1 });
    }
    answer_fitting(page, script, starts, pins, prices, cells, out)
}

// The same where the tables and the buffer are known to suffice.
pub(crate) fn answer_fitting<P: Price>(
    page: &CheckedPage<'_>,
    script: &[u8],
    starts: &mut [u32],
    pins: &mut [u8],
    prices: &mut [P],
    cells: &mut [P],
    out: &mut [u8],
) -> Result<usize, Fault>
    requires fine { unpack_fault page.now.bytes.now P.kind.number (length starts.old) (length pins.old) (length prices.old) ≡ None }
    requires room { script_room script.now ≤ length out.old }
    ensures { AnswerPage P.kind page.now.bytes.now script.now starts.old starts.new pins.old pins.new prices.old prices.new
        cells.old cells.new out.old out.new result }
{
    page.fill(starts, pins, prices)?;
    answer_script(page.counts, starts, pins, prices, script, cells, out)
}

// How many bytes the answers to a script take at most.
pub(crate) fn room_for(script: &[u8]) -> usize
    ensures { result ≡ script_room script.now }
{
    if is_too_long(script) {
        LINE_ROOM
    } else {
        LINE_ROOM * line_count(script)
    }
}

// Whether a script has more bytes than any that is run.
fn is_too_long(script: &[u8]) -> bool
    ensures { result ≡ nat_lt 65536 (length script.now) }
{
    script.len() > SCRIPT_MOST
}

// Runs a script on a new plan over the netlist of a page that was unpacked into these tables.
// The tables and the buffer stay apart: a struct that lends them needs a clause for each that it is still the caller's.
fn answer_script<'a, P: Price>(
    counts: Counts,
    starts: &'a [u32],
    pins: &'a [u8],
    prices: &'a [P],
    script: &[u8],
    cells: &mut [P],
    out: &mut [u8],
) -> Result<usize, Fault>
    ensures { ScriptOn P.kind counts starts.now pins.now prices.now script.now cells.old cells.new out.old out.new result }
{
    if is_too_long(script) {
        return write_line(Line::ScriptTooLong, out);
    }
    let mut netlist = PinTables::empty();
    load_unpacked(&mut netlist, counts, starts, pins, prices)?;
    run_script(netlist, cells, script, out)
}
