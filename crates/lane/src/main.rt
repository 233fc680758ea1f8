// The program `lane`: reads a job from standard input, smooths it, and writes its report to standard output.
#![tactic(auto)]

mod answer; // answer.rt: from the bytes of a job to the text of its answer
mod lines; // lines.rt: the lines of an answer
mod fields; // fields.rt: the fields of a line

ghost use Rattle.std.specs.Prelude.{length};
ghost use Rattle.lane.specs.Room.{Lent};

// standard input
const STDIN_FILENO: i32 = 0;
// standard output
const STDOUT_FILENO: i32 = 1;

// Reads as many bytes as the buffer has places, and writes the answer to them. A read that fails ends the
// input, and a write that fails ends the output.
fn run(
    bytes: &mut [u8],
    out: &mut [u8],
    cells: &mut [f64],
    work: &mut [f64],
    breaks: &mut [f64],
    coefficients: &mut [f64],
    other_breaks: &mut [f64],
    other_coefficients: &mut [f64],
    errors: &mut [f64],
)
    requires { Lent (length out.old) (length cells.old) (length work.old) (length breaks.old) (length coefficients.old)
        (length other_breaks.old) (length other_coefficients.old) (length errors.old) }
{
    let count = io::read_full(STDIN_FILENO, bytes);
    let end = answer::answer(
        &bytes[0..count],
        out,
        cells,
        work,
        breaks,
        coefficients,
        other_breaks,
        other_coefficients,
        errors,
    );
    io::write_all(STDOUT_FILENO, &out[0..end]);
}

// 1,621 bytes tell what a job is; then document 01's room for its limits: d 2, n 100, max_segments 100.
fn main() {
    let mut bytes = [0; 1621];
    let mut out = io::buffer();
    let mut cells = [0.0; 201];
    let mut work = [0.0; 7424];
    let mut breaks = [0.0; 101];
    let mut coefficients = [0.0; 1300];
    let mut other_breaks = [0.0; 100];
    let mut other_coefficients = [0.0; 1300];
    let mut errors = [0.0; 2];
    run(
        &mut bytes,
        &mut out,
        &mut cells,
        &mut work,
        &mut breaks,
        &mut coefficients,
        &mut other_breaks,
        &mut other_coefficients,
        &mut errors,
    );
}
