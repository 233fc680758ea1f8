// Lines of text, gathered in a buffer and written to standard output when it is full.
ghost use Rattle.std.specs.Prelude.{◌≡◌, ℕ, List, take};
ghost use Rattle.listing.specs.Output.{put, printed, whole_text, cell_text, cells_text, end_text, refused_text, damaged_text};

use std::marker::Model;

// standard output
const STDOUT_FILENO: i32 = 1;

// About from so many bytes on, a copy takes less time than a byte at a time.
const MANY: usize = 4;

// The buffer, and where the next byte goes in it.
#[derive(Drop)]
pub struct Output {
    buffer: [u8; 4096],
    at: usize,
}

impl Model for Output {
    ghost Value = { List ℕ × ℕ };

    ghost view = { λ s. (s.buffer, s.at) };
}

impl Output {
    // Nothing is in it.
    pub fn new() -> Output
        ensures { result.1 ≡ 0 }
    {
        Output {
            buffer: [0; 4096],
            at: 0,
        }
    }

    // Writes what is in the buffer.
    pub(crate) fn flush(&self) {
        if self.at <= self.buffer.len() {
            io::write_all(STDOUT_FILENO, &self.buffer[..self.at]);
        }
    }

    // One byte more.
    fn byte(&mut self, b: u8)
        ensures { self.new ≡ put self.old b }
    {
        if self.at < self.buffer.len() {
            self.buffer[self.at] = b;
            self.at += 1;
            return;
        }
        self.flush();
        self.buffer[0] = b;
        self.at = 1;
    }

    // The bytes of `words`: many of them at once, where there is room.
    pub fn text(&mut self, words: &[u8])
        ensures { self.new ≡ printed self.old words.now }
    {
        if MANY <= words.len()
            && self.at <= self.buffer.len()
            && words.len() <= self.buffer.len() - self.at
        {
            let next = self.at + words.len();
            self.buffer[self.at..next].copy_from_slice(words);
            self.at = next;
            return;
        }
        for b in words {
            self.byte(*b);
        }
    }

    // A blank, and a whole number in decimal.
    pub fn whole(&mut self, n: u64)
        ensures { self.new ≡ printed self.old (whole_text n) }
    {
        let mut digits = [0u8; 20];
        let count = io::decimal(n, &mut digits);
        self.byte(b' ');
        self.text(&digits[..count]);
    }

    // A blank, and an f64 as 16 hex digits, or `NaN`.
    pub fn cell(&mut self, x: f64)
        ensures { self.new ≡ printed self.old (cell_text x) }
    {
        let words = encoding::hex(x);
        self.byte(b' ');
        self.text(words.as_bytes());
    }

    // The cells of `list`.
    pub fn cells(&mut self, list: &[f64])
        ensures { self.new ≡ printed self.old (cells_text list.now) }
    {
        for x in list {
            self.cell(*x);
        }
    }

    // The first n cells of `list`, as far as there are any.
    pub fn first_cells(&mut self, list: &[f64], n: usize)
        ensures { self.new ≡ printed self.old (cells_text (take n list.now)) }
    {
        self.cells(&list[..n.min(list.len())]);
    }

    // The end of a line.
    pub fn end(&mut self)
        ensures { self.new ≡ printed self.old end_text }
    {
        self.byte(b'\n');
    }

    // The end of a line that tells a refusal's number.
    pub fn refused(&mut self, number: u64)
        ensures { self.new ≡ printed self.old (refused_text number) }
    {
        self.text(b" refused");
        self.whole(number);
        self.end();
    }

    // The list is damaged: one line that says at which byte the case that does not read starts.
    pub fn damaged(&mut self, place: u64)
        ensures { self.new ≡ printed self.old (damaged_text place) }
    {
        self.text(b"damaged at byte");
        self.whole(place);
        self.end();
        self.flush();
    }
}
