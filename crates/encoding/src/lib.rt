// Numbers as bytes and as text, for the programs: whole numbers and f64 of bytes, low byte first,
// and an f64 as 16 upper-case hex digits.
#![tactic(auto)]

ghost use Rattle.std.specs.Prelude.{◌≡◌, ◌+◌, ◌*◌, ◌≤◌, ◌<◌, [], length, take};
ghost use Rattle.std.specs.Float.{binary64};
ghost use Rattle.std.specs.Float.Ieee.{of_bits, to_bits};
ghost use Rattle.encoding.specs.Bytes.{low_first, wholes_of, float_of, floats_of};
ghost use Rattle.encoding.specs.Text.{digit_of, hex_digits, float_text};

// The whole number of at most eight bytes, low byte first.
pub fn whole(bytes: &[u8]) -> u64
    requires { length bytes.now ≤ 8 }
    ensures { result ≡ low_first bytes.now }
{
    let mut value: u64 = 0;
    for i in (0..bytes.len()).rev() {
        value = 256 * value + bytes[i] as u64;
    }
    value
}

// The whole number of eight bytes: one load.
fn eight(bytes: &[u8]) -> u64
    requires { length bytes.now ≡ 8 }
    ensures { result ≡ low_first bytes.now }
{
    u64::from_le_bytes([
        bytes[0], bytes[1], bytes[2], bytes[3], bytes[4], bytes[5], bytes[6], bytes[7],
    ])
}

// As many whole numbers as `cells` has places, from eight bytes each.
pub fn wholes(bytes: &[u8], cells: &mut [u64])
    requires { 8 * length cells.old ≤ length bytes.now }
    ensures { cells.new ≡ wholes_of (length cells.old) bytes.now }
{
    for i in 0..cells.len() {
        cells[i] = eight(&bytes[8 * i..8 * i + 8]);
    }
}

// The pattern of infinity: those of a NaN lie above it, but for the sign.
const INFINITY: u64 = 0x7ff0_0000_0000_0000;

// The f64 of a bit pattern; any NaN's pattern gives a NaN.
pub fn number(bits: u64) -> f64
    ensures { result ≡ of_bits binary64 bits }
{
    if bits % 0x8000_0000_0000_0000 > INFINITY {
        return f64::NAN;
    }
    f64::from_bits(bits)
}

// The bit pattern of x; of a NaN, whose own pattern the language does not see, the one with the sign
// clear and only the highest of the digits set.
pub fn pattern(x: f64) -> u64
    ensures { result ≡ to_bits binary64 x }
{
    if x.is_nan() {
        return 0x7ff8_0000_0000_0000;
    }
    x.to_bits()
}

// The f64 of eight bytes, low byte first; any NaN's pattern gives a NaN.
pub fn float(bytes: &[u8]) -> f64
    requires { length bytes.now ≤ 8 }
    ensures { result ≡ float_of bytes.now }
{
    number(whole(bytes))
}

// As many f64 as `cells` has places, from eight bytes each. One loop for both, with a closure, would need clauses on
// its calls that are longer than this loop.
pub fn floats(bytes: &[u8], cells: &mut [f64])
    requires { 8 * length cells.old ≤ length bytes.now }
    ensures { cells.new ≡ floats_of (length cells.old) bytes.now }
{
    for i in 0..cells.len() {
        let start = 8 * i;
        cells[i] = float(&bytes[start..start + 8]);
    }
}

// Up to 16 bytes of text: the first `len`.
#[derive(Clone, Copy)]
pub struct Text {
    pub bytes: [u8; 16],
    pub len: usize,
}

impl Text {
    pub fn as_bytes(&self) -> &[u8]
        ensures value { result.now ≡ take self.now.len self.now.bytes }
        ensures len { length result.now ≤ 16 }
    {
        &self.bytes[..self.len.min(16)]
    }
}

// The upper-case hex digit of a number below 16.
fn digit(n: u64) -> u8
    requires { n < 16 }
    ensures { result ≡ digit_of n }
{
    if n < 10 { b'0' + n as u8 } else { 55 + n as u8 }
}

// 64 bits as 16 upper-case hex digits.
fn digits(bits: u64) -> [u8; 16]
    ensures { result ≡ hex_digits 16 bits [] }
{
    let mut bytes = [0u8; 16];
    let mut rest = bits;
    for i in (0..16).rev() {
        bytes[i] = digit(rest % 16);
        rest /= 16;
    }
    bytes
}

// The bits of x as 16 upper-case hex digits, or `NaN`.
pub fn hex(x: f64) -> Text
    ensures { (result.len ≤ 16) × (take result.len result.bytes ≡ float_text x) }
{
    if x.is_nan() {
        let mut bytes = [0u8; 16];
        bytes[0..3].copy_from_slice(b"NaN");
        return Text { bytes, len: 3 };
    }
    Text {
        bytes: digits(x.to_bits()),
        len: 16,
    }
}
