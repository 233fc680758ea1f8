// Axes of a case: four to a whole number, the first in the low byte.
ghost use Rattle.std.specs.Prelude.{◌≡◌, ◌≤◌};
ghost use Rattle.listing.specs.Axes.{byte_of, axes_of};

// Byte j of a whole number of four bytes.
pub fn byte_of(word: u64, j: usize) -> usize
    ensures { result ≡ byte_of word j }
{
    match j {
        0 => (word % 256) as usize,
        1 => (word / 256 % 256) as usize,
        2 => (word / 65536 % 256) as usize,
        _ => (word / 16777216 % 256) as usize,
    }
}

// The axes of the four whole numbers from `from` on.
pub fn axes_of(wholes: &[u64; 16], from: usize) -> [usize; 16]
    requires { from ≤ 12 }
    ensures { result ≡ axes_of 16 wholes.now from }
{
    let mut listed = [0; 16];
    for i in 0..16 {
        listed[i] = byte_of(wholes[from + i / 4], i % 4);
    }
    listed
}
