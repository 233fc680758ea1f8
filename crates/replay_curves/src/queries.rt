// Cases of crate `curve`.
ghost use Rattle.listing.specs.Lines.{Unanswered};

use curve::{Curve, Mode};
use listing::curves::Slices;
use listing::list::Head;
use listing::output::Output;
use listing::{axes, curves, sizes};
use query::Lent;

// The four orders of one query.
fn query(curve: Curve, p: Slices<'_>, x: f64, out: &mut Output) {
    let mut q = [0.0; 16];
    let mut dq = [0.0; 16];
    let mut ddq = [0.0; 16];
    let mut dddq = [0.0; 16];
    let lent = Lent {
        curve,
        breaks: p.breaks,
        coefficients: p.coefficients,
        other_breaks: p.other_breaks,
        other_coefficients: p.other_coefficients,
    };
    match query::evaluate(&lent, x, 3, &mut q, &mut dq, &mut ddq, &mut dddq) {
        Ok(()) => {
            out.first_cells(&q, curve.d);
            out.first_cells(&dq, curve.d);
            out.first_cells(&ddq, curve.d);
            out.first_cells(&dddq, curve.d);
        }
        Err(refusal) => {
            out.text(b" refused");
            out.whole(refusal.number());
        }
    }
}

// Kind 80, whole numbers d, k, segments of both sets, queries and four of axes: values and derivatives
// at every query.
pub fn evaluate(head: Head, cells: &[f64], out: &mut Output) -> Option<()>
    ensures { Unanswered out.old out.new result }
{
    let wholes = head.wholes;
    let d = wholes[0] as usize;
    let k = wholes[1] as usize;
    let n = wholes[2] as usize;
    let others = wholes[3] as usize;
    if 16 < d || d < k || 20000 < n || 20000 < others || 65536 < wholes[4] {
        return None;
    }
    let p = curves::cut(
        cells,
        n + 1,
        sizes::rows(k, n),
        sizes::breaks(others),
        sizes::rows(d - k, others),
    )?;
    if p.rest.len() as u64 != wholes[4] {
        return None;
    }
    let axes = axes::axes_of(&wholes, 5);
    let curve = curves::curve_of(&wholes, axes, p.start, p.end, Mode::Error);
    out.text(b"evaluate");
    for x in p.rest {
        query(curve, p, *x, out);
    }
    out.end();
    Some(())
}
