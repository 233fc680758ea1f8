// Lane files: a curve as bytes. Coefficients and widths come as bit patterns.
ghost use Rattle.std.specs.Prelude.{◌≡◌, take};
ghost use Rattle.lane_file.specs.Curves.{cells};
ghost use Rattle.lane_file.specs.Outcome.{write_outcome, write_of, WritePromised, read_outcome, read_of, ReadPromised};
ghost use Rattle.pamitoye.specs.Choices.{passed_curve};
ghost use Rattle.pamitoye.specs.LaneFiles.{write_told, read_told};

use crate::{choices, curves};
use curve::Curve;

// The file of a curve, into the first bytes of a slice: `lane_file::write`.
#[unsafe(no_mangle)]
pub extern "C" fn pamitoye_write_lane(
    d: usize,
    k: usize,
    axes: &[usize; 16],
    start: f64,
    end: f64,
    clamp: bool,
    segments: usize,
    other_segments: usize,
    breaks: &[f64],
    coefficients: &[u64],
    other_breaks: &[f64],
    other_coefficients: &[u64],
    file: &mut [u8],
    count: &mut usize,
) -> u64
    ensures file_after { write_outcome result count.new file.new
        ≡ write_told (write_of (passed_curve d k axes.now start end clamp segments other_segments) (cells breaks.now
        coefficients.now other_breaks.now other_coefficients.now) file.old)
        count.old }
    ensures write_promised { result ≡ 0 → WritePromised (passed_curve d k axes.now start end clamp segments other_segments)
        (cells breaks.now coefficients.now other_breaks.now other_coefficients.now)
        (take count.new file.new) }
{
    let written = lane_file::write(
        file,
        curves::curve(d, k, axes, start, end, clamp, segments, other_segments),
        breaks,
        coefficients,
        other_breaks,
        other_coefficients,
    );
    match written {
        Ok(n) => {
            *count = n;
            0
        }
        Err(refusal) => refusal.number(),
    }
}

// The numbers of a curve that was read.
fn put_numbers(
    read: Curve,
    d: &mut usize,
    k: &mut usize,
    axes: &mut [usize; 16],
    start: &mut f64,
    end: &mut f64,
    clamp: &mut bool,
    segments: &mut usize,
    other_segments: &mut usize,
)
    ensures { passed_curve d.new k.new axes.new start.new end.new
        clamp.new segments.new other_segments.new
        ≡ read }
{
    let listed = read.axes;
    *d = read.d;
    *k = read.k;
    *axes = listed;
    *start = read.start;
    *end = read.end;
    *clamp = choices::is_clamp(read.mode);
    *segments = read.segments;
    *other_segments = read.other_segments;
}

// The curve of a file: `lane_file::read`. With 0 it is well formed, in slices of exactly its used cells.
#[unsafe(no_mangle)]
pub extern "C" fn pamitoye_read_lane(
    file: &[u8],
    d: &mut usize,
    k: &mut usize,
    axes: &mut [usize; 16],
    start: &mut f64,
    end: &mut f64,
    clamp: &mut bool,
    segments: &mut usize,
    other_segments: &mut usize,
    breaks: &mut [f64],
    coefficients: &mut [u64],
    other_breaks: &mut [f64],
    other_coefficients: &mut [u64],
) -> u64
    ensures other_coefficients_after { read_outcome result (passed_curve d.new k.new axes.new start.new end.new
        clamp.new segments.new other_segments.new) (cells breaks.new coefficients.new
        other_breaks.new other_coefficients.new)
        ≡ read_told (read_of file.now (cells breaks.old coefficients.old other_breaks.old
        other_coefficients.old)) (passed_curve d.old k.old axes.old start.old
        end.old clamp.old segments.old other_segments.old) }
    ensures read_promised { result ≡ 0 → ReadPromised file.now (passed_curve d.new k.new axes.new
        start.new
        end.new clamp.new segments.new other_segments.new) (cells breaks.new
        coefficients.new other_breaks.new other_coefficients.new) }
{
    match lane_file::read(file, breaks, coefficients, other_breaks, other_coefficients) {
        Ok(curve) => {
            put_numbers(
                curve,
                d,
                k,
                axes,
                start,
                end,
                clamp,
                segments,
                other_segments,
            );
            0
        }
        Err(refusal) => refusal.number(),
    }
}
