//! The batches of trials of one price kind.
use crate::cases::{DRAWN, NetlistCase, RunBatch, RunCase, drawn_case, five_case, run_case};
use crate::five::CASES;
use crate::kinds::Kind;
use crate::layer_check::{Agreement, compare};
use crate::report::Report;
use crate::run_check::RunAgreement;
use crate::tallies::{NetlistTally, RunTally};

// Tries all that is tried in one kind.
pub(crate) fn try_kind<K: Kind>(
    report: &mut Report<'_>,
    five_prices: &[K; 5],
) -> anyhow::Result<()> {
    try_five(report, five_prices)?;
    try_drawn::<K>(report)?;
    try_runs::<K>(report, RunBatch::Mixed)?;
    try_runs::<K>(report, RunBatch::Filling)
}

// The five-module netlist in every case.
fn try_five<K: Kind>(report: &mut Report<'_>, prices: &[K; 5]) -> anyhow::Result<()> {
    let batch = "five modules";
    let mut tally = NetlistTally::default();
    for number in 0..CASES {
        let mut case = five_case(report.heap(), prices, number)?;
        tally.add(try_netlist(report, batch, number, &mut case)?);
    }
    report.show_counts(batch, K::NAME, &tally.counts())
}

// Netlists that are drawn.
fn try_drawn<K: Kind>(report: &mut Report<'_>) -> anyhow::Result<()> {
    let batch = "drawn netlists";
    let mut tally = NetlistTally::default();
    for number in 0..DRAWN {
        let mut case = drawn_case::<K>(report.heap(), number)?;
        tally.add(try_netlist(report, batch, number, &mut case)?);
    }
    report.show_counts(batch, K::NAME, &tally.counts())
}

// Lists of calls.
fn try_runs<K: Kind>(report: &mut Report<'_>, batch: RunBatch) -> anyhow::Result<()> {
    let name = batch.name();
    let mut tally = RunTally::default();
    for number in 0..batch.count() {
        let mut case = run_case::<K>(report.heap(), batch, number)?;
        tally.add(try_run(report, name, number, &mut case)?);
    }
    report.show_counts(name, K::NAME, &tally.counts())
}

// One netlist with straps and mutes.
fn try_netlist<K: Kind>(
    report: &mut Report<'_>,
    batch: &str,
    number: u32,
    case: &mut NetlistCase<K>,
) -> anyhow::Result<Agreement> {
    let agreement = compare(report.heap(), &mut case.trial, &case.tries)?;
    if !agreement.is_full() {
        report.show_disagreement(batch, number, &case.trial)?;
    }
    Ok(agreement)
}

// One list of calls.
fn try_run<K: Kind>(
    report: &mut Report<'_>,
    batch: &str,
    number: u32,
    case: &mut RunCase<K>,
) -> anyhow::Result<RunAgreement> {
    let agreement = case
        .run
        .compare(report.heap(), &mut case.trial, case.below.as_ref())?;
    if !agreement.is_full() {
        report.show_disagreement(batch, number, &case.trial)?;
    }
    report.keep_refusals(case.run.answers.as_slice())?;
    Ok(agreement)
}
