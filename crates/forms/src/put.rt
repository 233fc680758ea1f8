// Numbers put into bytes from a place on: in groups of seven bits, and in eight bytes, low byte first.
ghost use Rattle.std.specs.Prelude.{◌≡◌, map, ◌+◌, ◌*◌, ◌≤◌, ◌<◌, length};
ghost use Rattle.std.specs.Float.{binary64};
ghost use Rattle.std.specs.Float.Ieee.{to_bits};
ghost use Rattle.window.specs.Rows.{written};
ghost use Rattle.forms.specs.Groups.{groups_of};
ghost use Rattle.forms.specs.Form.{bytes, low_bytes, write_all};

// How many groups n has.
pub fn group_count(n: usize) -> usize
    requires { n < 2097152 }
    ensures { (result ≡ length (groups_of 3 n)) × (result ≤ 3) }
{
    if n < 128 {
        return 1;
    }
    if n / 128 < 128 {
        return 2;
    }
    3
}

// The groups of n; the place after them.
pub fn put_number(file: &mut [u8], at: usize, n: usize) -> usize
    requires { (n < 2097152) × (at + 3 ≤ length file.old) }
    ensures { (file.new ≡ written at (groups_of 3 n) file.old) × (result ≡ at + length (groups_of 3 n)) ×
        (result ≤ at + 3) }
{
    if n < 128 {
        file[at] = n as u8;
        return at + 1;
    }
    file[at] = (128 + n % 128) as u8;
    let rest = n / 128;
    if rest < 128 {
        file[at + 1] = rest as u8;
        return at + 2;
    }
    file[at + 1] = (128 + rest % 128) as u8;
    file[at + 2] = (rest / 128) as u8;
    at + 3
}

// The eight bytes of a pattern.
pub fn put_word(file: &mut [u8], at: usize, bits: u64)
    requires { at + 8 ≤ length file.old }
    ensures { file.new ≡ written at (low_bytes 8 bits) file.old }
{
    file[at..at + 8].copy_from_slice(&bits.to_le_bytes());
}

// The patterns in the cells, eight bytes each.
pub fn put_words(file: &mut [u8], at: usize, cells: &[u64])
    requires { at + 8 * length cells.now ≤ length file.old }
    ensures { file.new ≡ written at (write_all (bytes 8) cells.now) file.old }
{
    for (i, bits) in cells.iter().enumerate() {
        put_word(file, at + 8 * i, *bits);
    }
}

// The patterns of the numbers in the cells, eight bytes each. One loop for both, with a closure, would need clauses on
// its calls that are longer than this loop.
pub fn put_floats(file: &mut [u8], at: usize, cells: &[f64])
    requires { at + 8 * length cells.now ≤ length file.old }
    ensures { file.new ≡ written at (write_all (bytes 8) (map (λ x. to_bits binary64 x) cells.now))
        file.old }
{
    for (i, x) in cells.iter().enumerate() {
        put_word(file, at + 8 * i, encoding::pattern(*x));
    }
}
