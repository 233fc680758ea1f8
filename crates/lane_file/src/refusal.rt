// Why a curve is not written, or a file not read.
ghost use Rattle.std.specs.Prelude.{◌≡◌};
ghost use Rattle.lane_file.specs.Outcome.{refusal_number};

// A refusal has written nothing.
#[derive(Clone, Copy, PartialEq, Eq)]
pub enum Refusal {
    DoesNotRead,
    NotWellFormed,
    TooShort,
}

impl Refusal {
    // The papers' number.
    pub fn number(self) -> u64
        ensures { result ≡ refusal_number self }
    {
        match self {
            Refusal::DoesNotRead => 27,
            Refusal::NotWellFormed => 24,
            Refusal::TooShort => 19,
        }
    }
}
