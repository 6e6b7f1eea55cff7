//! A list of calls run on a new plan over a netlist, and the order of the netlist's modules.
ghost use Rattle.runs.specs.WholeCall.{WholeCall};

use crate::running::run;
use netlist::Netlist;
use partition::ordering;
use plan::calls::{Answer, Asked};
use price::Price;
use refusal::Fault;
use standing::lent::Lent;

/// How many calls were run, and what the order answers.
#[derive(Drop)]
pub struct RunAndOrder<P> {
    pub count: usize,
    pub ordered: Result<P, Fault>,
}

/// Runs the calls on a new plan over the netlist, and orders the netlist's modules into the bytes.
pub fn run_and_order<N: Netlist>(
    netlist: &N,
    calls: &mut [Asked<N::Price>],
    answers: &mut [Answer<N::Price>],
    cells: &mut [N::Price],
    bytes: &mut [u8],
) -> RunAndOrder<N::Price>
    ensures { WholeCall N.Price.Price.kind (N.Netlist.meaning netlist.now) calls.old calls.new answers.old answers.new
        cells.old cells.new bytes.old bytes.new result.count result.ordered }
{
    RunAndOrder {
        count: run(Lent { netlist }, calls, answers),
        ordered: ordering::order(netlist, cells, bytes),
    }
}
