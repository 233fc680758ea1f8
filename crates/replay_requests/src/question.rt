// A request of the list: its whole numbers, and the parts of its cells.
ghost use Rattle.std.specs.Prelude.{◌≡◌, ◌++◌, IfSome};
ghost use Rattle.replay_requests.specs.Lending.{FewListed};

use building::{Axes, Limits, Request, Tolerance};
use listing::curves;
use request::parameters::Spacing;

// A request, and the cells of its tolerances. The cells are these, the points and the parameters.
#[derive(Clone, Copy)]
pub struct Question<'a> {
    pub tolerances: &'a [f64],
    pub request: Request<'a>,
}

// How many cells hold points: the sixteenth number, or d for each of n waypoints, where no count of cells
// is above 65536.
fn point_cells(wholes: &[u64; 16], numbers: usize) -> Option<u64> {
    if numbers == 16 {
        return Some(wholes[15]);
    }
    if 65536 < wholes[0] || 65536 < wholes[1] {
        return None;
    }
    Some(wholes[0] * wholes[1])
}

// All axes in mode 17, which is the number of listed axes else.
fn axes_of(k: u64, listed: &[usize; 16]) -> Option<Axes<'_>>
    ensures { IfSome result (λ axes. FewListed axes) }
{
    match k {
        17 => Some(Axes::All),
        0..=16 => Some(Axes::Listed(&listed[..k as usize])),
        _ => None,
    }
}

// One tolerance in mode 0, a list of them in mode 1.
fn tolerance_of(mode: u64, tolerances: &[f64]) -> Option<Tolerance<'_>> {
    match mode {
        0 if tolerances.len() == 1 => Some(Tolerance::Uniform(tolerances[0])),
        1 => Some(Tolerance::PerAxis(tolerances)),
        _ => None,
    }
}

// The request of the first `numbers` whole numbers, with these axes where they are listed; None where it does
// not fit the count of cells. There are parameters where these are listed alone.
pub fn asked<'a>(
    wholes: &[u64; 16],
    numbers: usize,
    listed: &'a [usize; 16],
    cells: &'a [f64],
) -> Option<Question<'a>>
    ensures parts { IfSome result (λ q. cells.now ≡ q.tolerances.now ++ (q.request.points.now ++ q.request.parameters.now)) }
    ensures few { IfSome result (λ q. FewListed q.request.axes) }
{
    if numbers != 13 && numbers != 16 {
        return None;
    }
    let axes = axes_of(wholes[2], listed)?;
    let (tolerances, rest) = cells.split_at_checked(wholes[4] as usize)?;
    let count = rest.len().checked_sub(wholes[6] as usize)?;
    let (points, parameters) = rest.split_at(count);
    if points.len() as u64 != point_cells(wholes, numbers)? {
        return None;
    }
    let tolerance = tolerance_of(wholes[3], tolerances)?;
    let spacing = curves::spacing_of(wholes[5])?;
    if !matches!(spacing, Spacing::Listed) && !parameters.is_empty() {
        return None;
    }
    let limits = Limits {
        refinements: wholes[7] as usize,
        segments: wholes[8] as usize,
    };
    let request = Request {
        points,
        d: wholes[0] as usize,
        n: wholes[1] as usize,
        axes,
        tolerance,
        spacing,
        parameters,
        limits,
    };
    Some(Question {
        tolerances,
        request,
    })
}
