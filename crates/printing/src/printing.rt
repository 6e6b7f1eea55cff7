//! What the program prints of a page and a script.
ghost use Rattle.std.specs.Prelude.{◌≡◌, ◌≤◌, length, take, IfOk, None};
ghost use Rattle.page.specs.Faults.{page_fault};
ghost use Rattle.lines.specs.Lines.{line_bytes};
ghost use Rattle.printing.specs.PageRuns.{script_room};
ghost use Rattle.printing.specs.Printed.{PrintedIn};

use crate::answering::{answer_fitting, room_for};
use crate::tables::Tables;
use lines::LINE_ROOM;
use lines::writing::{Line, write_line};
use page::checked::{CheckedPage, check_page};
use price::Price;
use std::alloc::{AllocError, Global};

/// All that the program prints of a page of one price kind and a script. The tables have room for every page.
pub fn print_page<P: Price>(heap: Global, page: &[u8], script: &[u8]) -> Result<Vec<u8>, AllocError>
    ensures { IfOk result (λ printed. PrintedIn P.kind page.now script.now printed.items) }
{
    match check_page::<P>(page) {
        Ok(page) => print_checked::<P>(heap, &page, script),
        Err(fault) => print_line(heap, Line::PageRefused { fault }),
    }
}

// The same of a page that has passed its checks.
pub(crate) fn print_checked<P: Price>(
    heap: Global,
    page: &CheckedPage<'_>,
    script: &[u8],
) -> Result<Vec<u8>, AllocError>
    requires { page_fault page.now.bytes.now P.kind.number ≡ None }
    ensures { IfOk result (λ printed. PrintedIn P.kind page.now.bytes.now script.now printed.items) }
{
    let tables = Tables::<P>::new(heap)?;
    let mut out = vec![in heap; 0u8; room_for(script)]?;
    let count = tables.answer_into(page, script, out.as_mut_slice());
    out.truncate(count);
    Ok(out)
}

// A line alone.
pub(crate) fn print_line(heap: Global, line: Line) -> Result<Vec<u8>, AllocError>
    ensures { IfOk result (λ printed. printed.items ≡ line_bytes line) }
{
    let mut out = vec![in heap; 0u8; LINE_ROOM]?;
    let count = write_line(line, out.as_mut_slice()).unwrap();
    out.truncate(count);
    Ok(out)
}

impl<P: Price> Tables<P> {
    // Answers a checked page and a script into a buffer that suffices, and answers how many bytes that took.
    #[tactic(auto, using(std::proofs::lemmas::Grind::common_steps, crate::proofs::PagesFit::pages_fit))]
    fn answer_into(self, page: &CheckedPage<'_>, script: &[u8], out: &mut [u8]) -> usize
        requires fine { page_fault page.now.bytes.now P.kind.number ≡ None }
        requires room { script_room script.now ≤ length out.old }
        ensures { PrintedIn P.kind page.now.bytes.now script.now (take result out.new) }
    {
        let Tables {
            mut starts,
            mut pins,
            mut prices,
            mut cells,
        } = self;
        answer_fitting(
            page,
            script,
            starts.as_mut_slice(),
            pins.as_mut_slice(),
            prices.as_mut_slice(),
            cells.as_mut_slice(),
            out,
        )
        .unwrap()
    }
}
