//! A whole script run on a new plan.
ghost use Rattle.session.specs.ScriptRuns.{RunScript};

use crate::running::run_line;
use lines::LINE_ROOM;
use netlist::Netlist;
use plan::plans::Plan;
use price::Price;
use refusal::Fault;
use script::scripts::{Lines, line_count};

/// Runs the lines of a script on a new plan over the netlist and writes their answers, one after another. Answers how many bytes that took; later bytes stay.
/// Each split is handed the cells.
/// Refused: a buffer of fewer than 37 bytes a line (10, table 1); then nothing changes.
pub fn run_script<N: Netlist + Drop>(
    netlist: N,
    cells: &mut [N::Price],
    script: &[u8],
    out: &mut [u8],
) -> Result<usize, Fault>
    ensures { RunScript N.Price.Price.kind (N.Netlist.meaning netlist) script.now out.old out.new cells.old cells.new result }
{
    if out.len() / LINE_ROOM < line_count(script) {
        return Err(Fault::TooShort { table: 1 });
    }
    let mut plan = Plan::over(netlist);
    let mut at = 0;
    for line in Lines::of(script) {
        let room = &mut out[at..at + LINE_ROOM];
        let count = run_line(&mut plan, cells, line, room).unwrap();
        at += count;
    }
    Ok(at)
}
