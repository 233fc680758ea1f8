// Parts of a lent slice: what a part holds, and what the slice holds after a part was written
// (specs/Window, specs/Parts); and the two writers that every layer uses.
#![tactic(auto)]

ghost use Rattle.std.specs.Prelude.{◌≡◌, length};
ghost use Rattle.window.specs.Cells.{zeros};
ghost use Rattle.window.specs.Window.{copied};

// Every cell becomes +0.
pub fn clear(s: &mut [f64])
    ensures { s.new ≡ zeros (length s.old) }
{
    s.fill(0.0);
}

// The cells of `src` into `dst`, from the front, as far as both reach; further cells of `dst` are
// unchanged. Where the two are equally long, `dst` then holds what `src` holds.
// A loop, since `copy_from_slice` of a length that is not known becomes a call of `memmove`.
pub fn copy(dst: &mut [f64], src: &[f64])
    ensures { dst.new ≡ copied src.now dst.old }
{
    let n = dst.len().min(src.len());
    for i in 0..n {
        dst[i] = src[i];
    }
}
