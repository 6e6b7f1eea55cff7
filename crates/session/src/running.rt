//! A script line run on a plan.
ghost use Rattle.session.specs.LineRuns.{CommandRun, RunLine, line_told};

use lines::LINE_ROOM;
use lines::writing::{Line, write_line};
use netlist::Netlist;
use plan::plans::Plan;
use price::Price;
use refusal::Fault;
use script::commands::Command;
use script::parsing::parse;

/// Runs a line, its byte 0x0A left out, and writes its answer into the buffer's first bytes. Answers how many; later bytes stay.
/// A split is handed the cells. A line that is not understood is answered `no 18` and changes nothing.
/// Refused: a buffer of fewer than 37 bytes (10, table 1), before the line is read; then nothing at all changes.
pub fn run_line<N: Netlist>(
    plan: &mut Plan<N>,
    cells: &mut [N::Price],
    line: &[u8],
    out: &mut [u8],
) -> Result<usize, Fault>
    ensures { RunLine N.Price.Price.kind N.Netlist.meaning line.now plan.old plan.new cells.old cells.new out.old out.new result }
{
    if out.len() < LINE_ROOM {
        return Err(Fault::TooShort { table: 1 });
    }
    let Some(command) = parse(line) else {
        return write_line(Fault::LineNotUnderstood.into(), out);
    };
    let told = run_command(plan, cells, command).unwrap_or_else(Line::from);
    write_line(told, out)
}

// Makes the call that a command says: the line of its answer, or why it is refused.
fn run_command<N: Netlist>(
    plan: &mut Plan<N>,
    cells: &mut [N::Price],
    command: Command,
) -> Result<Line, Fault>
    ensures { CommandRun N.Price.Price.kind N.Netlist.meaning command plan.old plan.new cells.old cells.new (line_told result) }
{
    match command {
        Command::Strap(a, b) => plan.strap(a, b).map(|()| Line::Accepted),
        Command::Mute(net) => plan.mute(net).map(|()| Line::Accepted),
        Command::TakeBack => plan.take_back().map(|()| Line::Accepted),
        Command::Split => plan.split(cells).map(|found| Line::Found {
            sides: found.sides,
            word: found.price.print_word(),
        }),
    }
}
