// The job of the program `lane`: four counts in groups of seven bits, then one tolerance and the points,
// eight bytes each.
#![tactic(auto)]

ghost use Rattle.std.specs.Prelude.{◌≡◌, ◌≤◌, length};
ghost use Rattle.smoothing.specs.Answer.{and_then};
ghost use Rattle.smoothing.specs.Answer.Answer.{done};
ghost use Rattle.job.specs.Job.{counts_form, above_limits, job_of};
ghost use Rattle.job.specs.Reading.{read_in, end_of, refusal_number, told_by, cells_after};

use forms::number_at;

// d, n, max_refinements and max_segments.
#[derive(Clone, Copy)]
pub struct Counts {
    pub d: usize,
    pub n: usize,
    pub refinements: usize,
    pub segments: usize,
}

// Why the bytes are no job.
#[derive(Clone, Copy, PartialEq, Eq)]
pub enum Refusal {
    // a count is above its limit
    AboveLimits,
    // too few bytes, or too many, or counts that do not read
    DoesNotRead,
}

impl Refusal {
    // Document 01's number.
    pub fn number(self) -> u64
        ensures { result ≡ refusal_number self }
    {
        match self {
            Refusal::AboveLimits => 18,
            Refusal::DoesNotRead => 25,
        }
    }
}

// The four counts and the place after them.
#[derive(Clone, Copy)]
struct Head {
    counts: Counts,
    next: usize,
}

// The four counts in front of the bytes; none, where they do not read.
fn four_counts(bytes: &[u8]) -> Option<Head>
    ensures result_value { read_in bytes.now result ≡ counts_form.read bytes.now }
    ensures result_in_bounds { end_of result ≤ length bytes.now }
{
    let d = number_at(bytes, 0)?;
    let n = number_at(bytes, d.next)?;
    let refinements = number_at(bytes, n.next)?;
    let segments = number_at(bytes, refinements.next)?;
    Some(Head {
        counts: Counts {
            d: d.value,
            n: n.value,
            refinements: refinements.value,
            segments: segments.value,
        },
        next: segments.next,
    })
}

// Whether a count is above its limit.
#[tactic(auto, unfolding(crate::specs::Job::above_limits))]
fn above_limits(c: Counts) -> bool
    ensures { result ≡ above_limits c }
{
    2 < c.d || 100 < c.n || 200 < c.refinements || 100 < c.segments
}

// The job that the bytes are. Its tolerance and points go to the first cells; a refusal leaves all cells as
// they were. A job within the limits has at most 201 numbers.
pub fn read(bytes: &[u8], cells: &mut [f64]) -> Result<Counts, Refusal>
    requires { 201 ≤ length cells.old }
    ensures result_value { told_by result ≡ and_then (job_of bytes.now) (λ j. done j.counts) }
    ensures cells_after { cells.new ≡ cells_after (job_of bytes.now) cells.old }
{
    let Some(Head { counts, next }) = four_counts(bytes) else {
        return Err(Refusal::DoesNotRead);
    };
    if above_limits(counts) {
        return Err(Refusal::AboveLimits);
    }
    let numbers = 1 + counts.d * counts.n;
    if bytes.len() - next != 8 * numbers {
        return Err(Refusal::DoesNotRead);
    }
    encoding::floats(&bytes[next..], &mut cells[0..numbers]);
    Ok(counts)
}
