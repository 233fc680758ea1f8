// The widths of segments, from their breaks.
ghost use Rattle.std.specs.Prelude.{◌≡◌, ◌+◌, ◌-◌, ◌≤◌, length};
ghost use Rattle.window.specs.Rows.{list_of, written};
ghost use Rattle.curve.specs.Form.{width_of};

// The width of each segment between the breaks, to the cells from `from` on.
pub fn put_widths(breaks: &[f64], from: usize, cells: &mut [f64])
    requires { from + (length breaks.now - 1) ≤ length cells.old }
    ensures { cells.new
        ≡ written from (list_of (length breaks.now - 1) (width_of breaks.now)) cells.old }
{
    for i in 0..breaks.len().saturating_sub(1) {
        cells[from + i] = breaks[i + 1] - breaks[i];
    }
}
