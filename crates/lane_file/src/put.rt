// The parts of a lane file, put into bytes.
ghost use Rattle.std.specs.Prelude.{◌≡◌, ◌++◌, map, ℕ, ◌+◌, ◌*◌, ◌≤◌, ◌<◌, length, take, get_or};
ghost use Rattle.window.specs.Rows.{written};
ghost use Rattle.forms.specs.Form.{groups, bytes, write_all};
ghost use Rattle.lane_file.specs.File.{head_form, patterns_form};
ghost use Rattle.lane_file.specs.Curves.{cells, pattern_of, mode_number, head_of, patterns_from};

use curve::{Curve, Mode};
use forms::put::{group_count, put_floats, put_number, put_word, put_words};

// The mode's number in a file.
fn mode_number(mode: Mode) -> usize
    ensures { (result ≡ mode_number mode) × (result ≤ 1) }
{
    match mode {
        Mode::Error => 0,
        Mode::Clamp => 1,
    }
}

// The first k axes; the place after them.
fn put_axes(file: &mut [u8], at: usize, axes: &[usize], k: usize) -> usize
    requires { (k ≤ length axes.now) × (at + 3 * k ≤ length file.old) × ((i : ℕ) → i < k → get_or axes.now i 0 < 2097152) }
    ensures { (file.new ≡ written at (write_all groups (take k axes.now)) file.old)
        × (result ≡ at + length (write_all groups (take k axes.now))) × (result ≤ at + 3 * k) }
{
    let mut next = at;
    for i in 0..k {
        next = put_number(file, next, axes[i]);
    }
    next
}

// d, k, axes, mode and both segment counts, into the first bytes; the place after them.
pub(crate) fn put_head(file: &mut [u8], curve: Curve) -> usize
    requires { (63 ≤ length file.old) × (curve.d < 2097152) × (curve.k ≤ 16) × (curve.segments < 2097152)
        × (curve.other_segments < 2097152) × ((i : ℕ) → i < curve.k → get_or curve.axes i 0 < 2097152) }
    ensures { (file.new ≡ written 0 (head_form.write (head_of curve)) file.old)
        × (result ≡ length (head_form.write (head_of curve))) }
{
    let axes = curve.axes;
    let k = curve.k;
    let mode = curve.mode;
    let second = put_number(file, 0, curve.d);
    let third = put_number(file, second, k);
    let fourth = put_axes(file, third, &axes, k);
    let fifth = put_number(file, fourth, mode_number(mode));
    let sixth = put_number(file, fifth, curve.segments);
    put_number(file, sixth, curve.other_segments)
}

// How many bytes they have.
pub(crate) fn head_length(curve: Curve) -> usize
    requires { (curve.d < 128) × (curve.k ≤ 16) × (curve.segments < 2097152) × (curve.other_segments < 2097152)
        × ((i : ℕ) → i < curve.k → get_or curve.axes i 0 < 128) }
    ensures { (result ≡ length (head_form.write (head_of curve))) × (result ≤ 25) }
{
    3 + curve.k + group_count(curve.segments) + group_count(curve.other_segments)
}

// A set's breaks and coefficients, from a place on.
fn put_set(file: &mut [u8], at: usize, breaks: &[f64], coefficients: &[u64])
    requires { at + 8 * (length breaks.now + length coefficients.now) ≤ length file.old }
    ensures { file.new
        ≡ written at (write_all (bytes 8) (map pattern_of breaks.now) ++ write_all (bytes 8) coefficients.now)
        file.old }
{
    put_floats(file, at, breaks);
    put_words(file, at + 8 * breaks.len(), coefficients);
}

// Start, end and both sets, from a place on.
pub(crate) fn put_patterns(
    file: &mut [u8],
    at: usize,
    curve: Curve,
    breaks: &[f64],
    coefficients: &[u64],
    other_breaks: &[f64],
    other_coefficients: &[u64],
)
    requires { at + 8 * (2 + length breaks.now + length coefficients.now + length other_breaks.now
        + length other_coefficients.now) ≤ length file.old }
    ensures { file.new
        ≡ written at ((patterns_form (head_of curve)).write (patterns_from curve (cells breaks.now coefficients.now
        other_breaks.now other_coefficients.now))) file.old }
{
    put_word(file, at, encoding::pattern(curve.start));
    put_word(file, at + 8, encoding::pattern(curve.end));
    put_set(file, at + 16, breaks, coefficients);
    put_set(
        file,
        at + 16 + 8 * (breaks.len() + coefficients.len()),
        other_breaks,
        other_coefficients,
    );
}
