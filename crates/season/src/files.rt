// The files of a run, in the bytes that were read so far.
ghost use Rattle.std.specs.Prelude.{◌<◌, length};
ghost use Rattle.season.specs.Next.{NextIn};

use forms::Number;

// A file, from a place up to another; or more bytes are needed to tell; or the run stops.
#[derive(Clone, Copy)]
pub enum Next {
    File { from: usize, to: usize },
    More,
    Bad,
}

// The next file from a place on. `last` says that no bytes follow.
pub fn next_file(bytes: &[u8], at: usize, last: bool) -> Next
    requires { at < length bytes.now }
    ensures { NextIn bytes.now at last result }
{
    // a leading count may go on in bytes that were not read yet: it has at most three
    if bytes.len() - at < 3 && !last {
        return Next::More;
    }
    let Some(Number { value, next }) = forms::number_at(bytes, at) else {
        return Next::Bad;
    };
    if 60000 < value {
        return Next::Bad;
    }
    if bytes.len() - next < value {
        if last {
            return Next::Bad;
        }
        return Next::More;
    }
    Next::File {
        from: next,
        to: next + value,
    }
}
