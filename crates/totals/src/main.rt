// The program `totals`: reads lane files from standard input, one after the other, each led by its byte
// count, and writes their totals to standard output: document 02, request 13.
#![tactic(auto)]

ghost use Rattle.std.specs.Prelude.{IfSome, ◌≡◌, List, ℕ, ◌≤◌, length, take};
ghost use Rattle.heights.specs.Weights.{weight_table};
ghost use Rattle.lane_totals.specs.Kept.{Lent};
ghost use Rattle.season.specs.Run.{Running, Reached};
ghost use Rattle.totals.specs.Input.{ReadMore, Onward, Ended};

use lane_totals::sums;
use lane_totals::sums::Sums;
use season::Turn;

// standard input
const STDIN_FILENO: i32 = 0;
// standard output
const STDOUT_FILENO: i32 = 1;

// Reads as much as the buffer holds behind what is left there, and takes it in. A read that fails ends the input.
fn take_turn(
    buffer: &mut [u8],
    filled: usize,
    before: Sums,
    weights: &[u64],
    breaks: &mut [f64],
    coefficients: &mut [u64],
    other_breaks: &mut [f64],
    other_coefficients: &mut [u64],
) -> Turn
    requires buffer_len { (length buffer.old ≡ 65536) × (filled ≤ 60002) × Running before }
    requires lent { Lent 7500 (length breaks.old) (length coefficients.old) (length other_breaks.old)
        (length other_coefficients.old) × (weights.now ≡ weight_table) }
    ensures by_index { (seen : List ℕ) → Reached seen (take filled buffer.old) before → ReadMore seen buffer.new result }
    ensures running { Onward before result }
{
    let count = io::read_full(STDIN_FILENO, &mut buffer[filled..]);
    let end = filled + count;
    season::take_part(
        buffer,
        end,
        end < 65536,
        before,
        weights,
        breaks,
        coefficients,
        other_breaks,
        other_coefficients,
    )
}

// Writes the answer to what was read. A write that fails ends the output.
fn tell(outcome: Option<Sums>, out: &mut [u8])
    requires { (4096 ≤ length out.old) × IfSome outcome Running × Ended outcome }
{
    let to = season::answer(outcome, out);
    io::write_all(STDOUT_FILENO, &out[0..to]);
}

// Turn after turn, until the run has ended.
fn run(
    buffer: &mut [u8],
    out: &mut [u8],
    weights: &[u64],
    breaks: &mut [f64],
    coefficients: &mut [u64],
    other_breaks: &mut [f64],
    other_coefficients: &mut [u64],
)
    requires buffer_len { (length buffer.old ≡ 65536) × (4096 ≤ length out.old) }
    requires lent { Lent 7500 (length breaks.old) (length coefficients.old) (length other_breaks.old)
        (length other_coefficients.old) × (weights.now ≡ weight_table) }
{
    let mut all = sums::none();
    let mut filled = 0;
    loop {
        let turn = take_turn(
            buffer,
            filled,
            all,
            weights,
            breaks,
            coefficients,
            other_breaks,
            other_coefficients,
        );
        match turn {
            Turn::Ended(outcome) => {
                tell(outcome, out);
                return;
            }
            Turn::Goes { filled: left, sums } => {
                filled = left;
                all = sums;
            }
        }
    }
}

// A file of 60,000 bytes has at most 7,500 numbers; a count and a file have at most 60,003 bytes.
fn main() {
    let mut buffer = io::large_buffer();
    let mut out = io::buffer();
    let weights = heights::weight_table();
    let mut breaks = [0.0; 7500];
    let mut coefficients = [0u64; 7500];
    let mut other_breaks = [0.0; 7500];
    let mut other_coefficients = [0u64; 7500];
    run(
        &mut buffer,
        &mut out,
        &weights,
        &mut breaks,
        &mut coefficients,
        &mut other_breaks,
        &mut other_coefficients,
    );
}
