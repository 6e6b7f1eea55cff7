//! The program: tries orders, splits and runs of calls on small netlists, compares each answer with the rules by trying every division,
//! and prints how many agree. Counts saturate throughout, since the checker asks that none overflows; trials are small, so none comes near its stop.
#![tactic(auto)]

mod batches;
mod calls;
mod cases;
mod cells;
mod change_rule;
mod drawing;
mod five;
mod kinds;
mod layer_check;
mod order_check;
mod order_rule;
mod random;
mod reckoning;
mod report;
mod run_check;
mod sides;
mod split_rule;
mod tables;
mod tallies;
mod trial;

use crate::batches::try_kind;
use crate::five::five_modules;
use crate::order_check::OrderRows;
use crate::report::Report;
use crate::tables::Tables;
use anyhow::bail;
use fixtures::five_modules::{TIMERS_FIRST, WIDEST, WIRES};
use partition::ordering::order;
use std::alloc::Global;

fn main(rt: HostRuntime) -> anyhow::Result<()> {
    let mut report = Report::new(&rt);
    show_five(&report, rt.alloc())?;
    try_kind(&mut report, &WIRES)?;
    try_kind(&mut report, &TIMERS_FIRST)?;
    try_kind(&mut report, &WIDEST)?;
    report.finish()
}

// Prints the order of the five-module netlist in wires. Whether it is that of the rule is told among the cases that follow.
fn show_five(report: &Report<'_>, heap: Global) -> anyhow::Result<()> {
    let trial = five_modules(heap, &WIRES)?;
    let tables = Tables::of(heap, &trial)?;
    let mut rows = OrderRows::before(heap, trial.modules)?;
    let ordered = order(
        &tables.load()?,
        rows.cells.as_mut_slice(),
        rows.bytes.as_mut_slice(),
    );
    let Ok(price) = ordered else {
        bail!("the order of the five-module netlist was refused");
    };
    rows.bytes.truncate(trial.modules);
    report.show_order(rows.bytes.as_slice(), price)
}
