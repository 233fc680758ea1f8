// A curve with the four slices that stand beside it.
ghost use Rattle.std.specs.Prelude.{◌≡◌};
ghost use Rattle.curve.specs.Form.{well_formed};
ghost use Rattle.query.specs.Lent.{slices_of};

use curve::{Curve, form};

// A curve, and what is lent with it: of the selected and of the other set the breaks, and the coefficients
// with the widths of the segments behind them.
#[derive(Clone, Copy)]
pub struct Lent<'a> {
    pub curve: Curve,
    pub breaks: &'a [f64],
    pub coefficients: &'a [f64],
    pub other_breaks: &'a [f64],
    pub other_coefficients: &'a [f64],
}

impl<'a> Lent<'a> {
    // Whether the curve is well formed.
    pub fn well_formed(&self) -> bool
        ensures { result ≡ well_formed self.now.curve (slices_of self.now) }
    {
        form::well_formed(
            self.curve,
            self.breaks,
            self.coefficients,
            self.other_breaks,
            self.other_coefficients,
        )
    }
}
