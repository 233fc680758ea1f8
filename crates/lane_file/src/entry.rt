// Writing and reading a lane file.
ghost use Rattle.std.specs.Prelude.{◌≡◌, take};
ghost use Rattle.lane_file.specs.Curves.{cells};
ghost use Rattle.lane_file.specs.Outcome.{write_outcome, write_number, write_count, write_of, WritePromised, read_outcome, read_number, curve_in, read_of, ReadPromised};

use crate::Refusal;
use crate::cells::{curve_at, read_sets, too_short};
use crate::formed::formed;
use crate::head::whole_head;
use crate::kept::well_formed;
use crate::put::{head_length, put_head, put_patterns};
use curve::Curve;

// The file of the curve, into the first bytes of the slice.
pub fn write(
    file: &mut [u8],
    curve: Curve,
    breaks: &[f64],
    coefficients: &[u64],
    other_breaks: &[f64],
    other_coefficients: &[u64],
) -> Result<usize, Refusal>
    ensures file_after { write_outcome (write_number result) (write_count result) file.new
        ≡ write_of curve (cells breaks.now coefficients.now other_breaks.now
        other_coefficients.now)
        file.old }
    ensures write_promised { write_number result ≡ 0 → WritePromised curve (cells breaks.now coefficients.now
        other_breaks.now
        other_coefficients.now) (take (write_count result) file.new) }
{
    let formed = well_formed(
        curve,
        breaks,
        coefficients,
        other_breaks,
        other_coefficients,
    );
    if !formed {
        return Err(Refusal::NotWellFormed);
    }
    let numbers = coefficients.len() - curve.segments;
    let others = other_coefficients.len() - curve.other_segments;
    let cells = 2 + breaks.len() + numbers + other_breaks.len() + others;
    let count = head_length(curve) + 8 * cells;
    if file.len() < count {
        return Err(Refusal::TooShort);
    }
    let next = put_head(file, curve);
    put_patterns(
        file,
        next,
        curve,
        breaks,
        &coefficients[0..numbers],
        other_breaks,
        &other_coefficients[0..others],
    );
    Ok(count)
}

// The curve of the file, its breaks and coefficients into the first cells of the slices.
pub fn read(
    file: &[u8],
    breaks: &mut [f64],
    coefficients: &mut [u64],
    other_breaks: &mut [f64],
    other_coefficients: &mut [u64],
) -> Result<Curve, Refusal>
    ensures other_coefficients_after { read_outcome (read_number result) (curve_in result) (cells breaks.new coefficients.new
        other_breaks.new other_coefficients.new)
        ≡ read_of file.now (cells breaks.old coefficients.old other_breaks.old
        other_coefficients.old) }
    ensures read_promised { read_number result ≡ 0 → ReadPromised file.now (curve_in result)
        (cells breaks.new coefficients.new
        other_breaks.new other_coefficients.new) }
{
    let Some(head) = whole_head(file) else {
        return Err(Refusal::DoesNotRead);
    };
    if !formed(file, head) {
        return Err(Refusal::NotWellFormed);
    }
    let short = too_short(
        file,
        head,
        breaks.len(),
        coefficients.len(),
        other_breaks.len(),
        other_coefficients.len(),
    );
    if short {
        return Err(Refusal::TooShort);
    }
    read_sets(
        file,
        head,
        breaks,
        coefficients,
        other_breaks,
        other_coefficients,
    );
    Ok(curve_at(file, head))
}
