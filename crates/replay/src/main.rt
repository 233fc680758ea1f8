// The fixed list of the Rust's answers, replayed: reads cases from standard input, calls the proved
// functions, and writes a line for each case. oracle/README.md has the form of a list and of the
// lines. A module's cases stand in a file of a library `replay_..`, with one function for each kind.
#![tactic(auto)]

use listing::list::Head;
use listing::output::Output;
use listing::turn;
use replay_curves::{audits, certificates, queries};
use replay_leaves::{cases, leaves};
use replay_queries::queries::{Way, query};
use replay_splines::{knots, splines};
use replay_systems::{fits, systems};

// The line of one case; None where the case does not fit its kind.
fn answer(head: Head, cells: &[f64], work: &mut [f64], out: &mut Output) -> Option<()> {
    match head.kind {
        1 => cases::clear(cells, work, out),
        2 => cases::copy(head, cells, work, out),
        10..=16 => leaves::leaf(head.kind, cells, out),
        17 => leaves::power(head, cells, out),
        18 => leaves::is_finite(head, cells, out),
        20 => splines::partition_point_le(head, cells, out),
        21 => splines::partition_point_lt(head, cells, out),
        22 => splines::span(head, cells, out),
        23 => splines::values(head, cells, out),
        24 => splines::powers(head, cells, out),
        25 => splines::insert(head, cells, work, out),
        26 => splines::polynomial(head, cells, work, out),
        30 => systems::normal(head, cells, work, out),
        40 => fits::fit(head, cells, work, out),
        50 => audits::audit(head, cells, work, out),
        60 => knots::seeded(head, cells, work, out),
        61 => knots::regions(head, cells, out),
        62 => knots::sort_dedup(cells, work, out),
        80 => queries::evaluate(head, cells, out),
        81 => query(Way::Single, head, cells, out),
        82 => query(Way::All, head, cells, out),
        83 => query(Way::InTurn, head, cells, out),
        84 => replay_returns::returned(head, cells, out),
        90 => certificates::certify(head, cells, out),
        _ => None,
    }
}

fn main() {
    let mut cells = [0.0; 65536];
    let mut work = [0.0; 65536];
    let mut bytes = io::buffer();
    turn::run(
        &mut bytes,
        &mut cells,
        |head, cells, out| answer(head, cells, &mut work, out),
    );
}
