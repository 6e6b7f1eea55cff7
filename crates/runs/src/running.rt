//! A list of calls run on a new plan.
ghost use Rattle.runs.specs.RunCalls.{RunOf};

use netlist::Netlist;
use plan::calls::{Answer, Asked};
use plan::plans::Plan;
use price::Price;

/// Runs the calls on a new plan over the netlist, as many as there is room for answers, and answers how many that is.
/// Each split is handed the row of cells that it brings. Later answers and calls stay.
pub fn run<N: Netlist + Drop>(
    netlist: N,
    calls: &mut [Asked<N::Price>],
    answers: &mut [Answer<N::Price>],
) -> usize
    ensures { RunOf N.Price.Price.kind (N.Netlist.meaning netlist) calls.old calls.new answers.old answers.new result }
{
    let count = calls.len().min(answers.len());
    let mut plan = Plan::over(netlist);
    // An index: both rows are written, and after `iter_mut` under `zip` a proof knows no item of either.
    for i in 0..count {
        answers[i] = plan.ask(&mut calls[i]);
    }
    count
}
