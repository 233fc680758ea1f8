// Cases of crate `certificate`.
ghost use Rattle.listing.specs.Lines.{Unanswered};

use certificate::certify::Refusal;
use curve::Mode;
use listing::list::Head;
use listing::output::Output;
use listing::{axes, curves};

// The line of a certificate.
fn line(certificate: Result<Option<f64>, Refusal>, out: &mut Output) {
    out.text(b"certify");
    match certificate {
        Ok(Some(x)) => {
            out.text(b" figure");
            out.cell(x);
            out.end();
        }
        Ok(None) => {
            out.text(b" none");
            out.end();
        }
        Err(refusal) => out.refused(refusal.number()),
    }
}

// Kind 90, whole numbers d, k, segments of both sets, n, four of axes, six counts of cells, and the
// axis with the parameter mode and the depth: the certified figure.
pub fn certify(head: Head, cells: &[f64], out: &mut Output) -> Option<()>
    ensures { Unanswered out.old out.new result }
{
    let wholes = head.wholes;
    let p = curves::cut(
        cells,
        wholes[9] as usize,
        wholes[10] as usize,
        wholes[11] as usize,
        wholes[12] as usize,
    )?;
    let (points, parameters) = p.rest.split_at_checked(wholes[13] as usize)?;
    if parameters.len() as u64 != wholes[14] {
        return None;
    }
    let word = wholes[15];
    let spacing = curves::spacing_of(word / 256 % 256)?;
    let axes = axes::axes_of(&wholes, 5);
    let curve = curves::curve_of(&wholes, axes, p.start, p.end, Mode::Error);
    let certificate = certificate::certify::certify(
        curve,
        p.breaks,
        p.coefficients,
        p.other_breaks,
        p.other_coefficients,
        points,
        wholes[4] as usize,
        spacing,
        parameters,
        (word % 256) as usize,
        (word / 65536) as usize,
    );
    line(certificate, out);
    Some(())
}
