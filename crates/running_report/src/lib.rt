// The running report of the source's `build`, "one record that each stage adds to" (document 01): the adders of a fit and
// of an audit, to which it is lent by `&mut`, and the two stages that lend it.
#![tactic(auto)]

ghost use Rattle.std.specs.Prelude.{◌≡◌, ◌+◌, ◌<◌, ◌^◌};
ghost use Rattle.smoothing.specs.State.{add_rows, add_intervals};
ghost use Rattle.running_report.specs.Counted.{counts_of};

// `report.refinements`, `report.fitting_rows`, `report.checked_intervals`.
#[derive(Clone, Copy)]
pub struct Report {
    pub refinements: usize,
    pub rows: usize,
    pub intervals: usize,
}

// `report.fitting_rows += rows`
pub fn add_rows(report: &mut Report, rows: usize)
    requires { report.old.rows + rows < 2 ^ 64 }
    ensures { counts_of report.new ≡ add_rows rows (counts_of report.old) }
{
    report.rows += rows;
}

// `report.checked_intervals += checked`
pub fn add_intervals(report: &mut Report, checked: usize)
    requires { report.old.intervals + checked < 2 ^ 64 }
    ensures { counts_of report.new ≡ add_intervals checked (counts_of report.old) }
{
    report.intervals += checked;
}

// What the report is after a fit of so many rows: the running one is lent to the adder.
pub fn after_fit(report: Report, rows: usize) -> Report
    requires { report.rows + rows < 2 ^ 64 }
    ensures { counts_of result ≡ add_rows rows (counts_of report) }
{
    let mut running = report;
    add_rows(&mut running, rows);
    running
}

// The same after an audit of so many intervals.
pub fn after_audit(report: Report, checked: usize) -> Report
    requires { report.intervals + checked < 2 ^ 64 }
    ensures { counts_of result ≡ add_intervals checked (counts_of report) }
{
    let mut running = report;
    add_intervals(&mut running, checked);
    running
}
