// Reading a list of cases from standard input. A list is the eight bytes `REPLAY01`, then cases one
// after the other; a case is its kind, a count of whole numbers and these, four bytes each, and a
// count of cells, four bytes, and these, eight bytes each; low bytes first.
ghost use Rattle.std.specs.Prelude.{◌≡◌, ◌*◌, ◌≤◌, true, length, take, IsOk, IfOk};
ghost use Rattle.encoding.specs.Bytes.{low_first};
ghost use Rattle.listing.specs.Cases.{opening, after_case};

// standard input
const STDIN_FILENO: i32 = 0;

// Why there is no further case: the list has ended, or does not read.
#[derive(Clone, Copy, PartialEq, Eq)]
pub enum Stop {
    End,
    Damaged,
}

// A case without its cells: its kind, its whole numbers, and how many cells follow.
#[derive(Clone, Copy)]
pub struct Head {
    pub kind: u8,
    pub count: usize,
    pub wholes: [u64; 16],
    pub cells: usize,
}

// Reads n bytes to the start of `bytes`, where all are there.
fn take(bytes: &mut [u8], n: usize) -> Result<(), Stop>
    ensures { IsOk result → n ≤ length bytes.old }
{
    if bytes.len() < n {
        return Err(Stop::Damaged);
    }
    if io::read_full(STDIN_FILENO, &mut bytes[..n]) < n {
        return Err(Stop::Damaged);
    }
    Ok(())
}

// Whether the input starts as a list does.
pub fn opens(bytes: &mut [u8]) -> bool
    ensures { result ≡ true → low_first (take 8 bytes.new) ≡ opening }
{
    if take(bytes, 8).is_err() {
        return false;
    }
    encoding::whole(&bytes[..8]) == 0x3130_5941_4c50_4552
}

// The first `count` whole numbers of four bytes each.
fn numbers_of(bytes: &[u8], count: usize) -> [u64; 16]
    requires { (count ≤ 16) × (4 * count ≤ length bytes.now) }
{
    let mut numbers = [0; 16];
    for i in 0..count {
        let from = 4 * i;
        numbers[i] = encoding::whole(&bytes[from..from + 4]);
    }
    numbers
}

// The whole numbers of a case, of which there are `count`, and the count of its cells, at most
// `most`.
fn rest_of_head(bytes: &mut [u8], kind: u8, count: usize, most: usize) -> Result<Head, Stop>
    requires { count ≤ 16 }
    ensures { IfOk result (λ head. head.cells ≤ most) }
{
    let from = 4 * count;
    take(bytes, from + 4)?;
    let cells = encoding::whole(&bytes[from..from + 4]) as usize;
    if most < cells {
        return Err(Stop::Damaged);
    }
    let wholes = numbers_of(bytes, count);
    Ok(Head {
        kind,
        count,
        wholes,
        cells,
    })
}

// The next case of the list, up to its cells, of which there are at most `most`.
fn next_head(bytes: &mut [u8], most: usize) -> Result<Head, Stop>
    ensures { IfOk result (λ head. head.cells ≤ most) }
{
    if bytes.len() < 2 {
        return Err(Stop::Damaged);
    }
    let got = io::read_full(STDIN_FILENO, &mut bytes[..2]);
    if got == 0 {
        return Err(Stop::End);
    }
    let kind = bytes[0];
    let count = bytes[1] as usize;
    if got < 2 || 16 < count {
        return Err(Stop::Damaged);
    }
    rest_of_head(bytes, kind, count, most)
}

// Reads a cell for each place of `cells`, where all are there, and fit in `bytes`.
fn chunk(bytes: &mut [u8], cells: &mut [f64]) -> Result<(), Stop> {
    let n = cells.len();
    if bytes.len() / 8 < n {
        return Err(Stop::Damaged);
    }
    take(bytes, 8 * n)?;
    encoding::floats(bytes, cells);
    Ok(())
}

// Reads a cell for each place of `cells`, 512 at a time, where all are there.
fn fill(bytes: &mut [u8], cells: &mut [f64]) -> Result<(), Stop> {
    let n = cells.len();
    for from in (0..n).step_by(512) {
        let to = from + (n - from).min(512);
        chunk(bytes, &mut cells[from..to])?;
    }
    Ok(())
}

// The next case of the list, with its cells at the start of `cells`.
pub fn next_case(bytes: &mut [u8], cells: &mut [f64]) -> Result<Head, Stop>
    ensures { IfOk result (λ head. head.cells ≤ length cells.old) }
{
    let head = next_head(bytes, cells.len())?;
    fill(bytes, &mut cells[..head.cells])?;
    Ok(head)
}

// The byte after a case that starts at `place`, has `count` whole numbers and `cells` cells.
pub fn after(place: u64, count: usize, cells: usize) -> u64
    ensures { result ≡ after_case place count cells }
{
    if 16 < count || 65536 < cells {
        return place;
    }
    place.wrapping_add((6 + 4 * count + 8 * cells) as u64)
}
