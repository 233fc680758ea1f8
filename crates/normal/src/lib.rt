// The normal equations of a least-squares fit of quintic B-splines: a symmetric system whose matrix
// has a lower band of six, with d right sides. It lies in one lent slice: the band, the right
// sides, then the scales that `solve` needs (specs/System).
#![tactic(auto)]

ghost use Rattle.std.specs.Prelude.{◌≡◌, true, false, ◌+◌, ◌-◌, ◌*◌, ◌≤◌, ◌<◌, min, length};
ghost use Rattle.arith.specs.Loop.{each};
ghost use Rattle.normal.specs.System.{usize_max, size_of, system_of};
ghost use Rattle.normal.specs.Add.{value_of, row_of, active, product_of, add_band_of, shares_of, add_right_of, add_of};
ghost use Rattle.normal.specs.Solve.{unfit_of, any_unfit_of, roots_of, scale_row_of, divide_row_of, scale_of, reduced_of, eliminated_of, factor_of, forward_value_of, forward_row_of, forward_of, back_value_of, back_row_of, backward_of, unscale_of, finish_of, solve_of, number_of, refusal_number};

// A fitting row: six basis values from control `start` on, their weight, and for each axis how far
// the curve misses the target there, times the weight.
#[derive(Clone, Copy)]
pub struct Row {
    pub start: usize,
    pub basis: [f64; 6],
    pub weight: f64,
    pub residual: [f64; 16],
}

// What the six basis values give with the controls, on one axis.
fn value(c: &[f64], d: usize, start: usize, basis: [f64; 6], axis: usize) -> f64
    requires { ((start + 6) * d ≤ length c.now) × (axis < d) }
    ensures { result ≡ value_of c.now d start basis axis }
{
    let mut sum = -0.0;
    for j in 0..6 {
        sum += basis[j] * c[(start + j) * d + axis];
    }
    sum
}

// The fitting row for a target, from the controls as they are.
#[tactic(auto, using(crate::proofs::Turns::loops), unfolding(crate::specs::Add::row_of, crate::specs::Add::difference_of))]
pub fn fitting_row(
    c: &[f64],
    d: usize,
    start: usize,
    basis: [f64; 6],
    weight: f64,
    target: [f64; 16],
) -> Row
    requires { (d ≤ 16) × ((start + 6) * d ≤ length c.now) }
    ensures { result ≡ row_of c.now d start basis weight target }
{
    let mut residual = [0.0; 16];
    for axis in 0..d {
        let v = value(c, d, start, basis, axis);
        residual[axis] = weight * (target[axis] - v);
    }
    Row {
        start,
        basis,
        weight,
        residual,
    }
}

// Whether a control is one of the n active ones from a on.
#[tactic(auto, unfolding(crate::specs::Add::active))]
fn is_active(a: usize, n: usize, control: usize) -> bool
    requires { a + n ≤ usize_max }
    ensures { result ≡ active a n control }
{
    a <= control && control < a + n
}

// Adds the products of the row's value i with those up to it to the band's row of its control.
fn add_products(h: &mut [f64], a: usize, row: Row, i: usize)
    requires { (i < 6) × (a ≤ row.start + i) × (row.start + 6 ≤ usize_max) × (6 * (row.start + i - a) + 6 ≤ length h.old) }
    ensures { h.new ≡ each (product_of a row i) 0 (i + 1) h.old }
{
    let start = row.start;
    let at = 6 * (start + i - a);
    for j in 0..i + 1 {
        if a <= start + j {
            h[at + (i - j)] = h[at + (i - j)] + row.weight * row.basis[i] * row.basis[j];
        }
    }
}

// Adds the row's products to the band of the n active controls from a on.
fn add_band(h: &mut [f64], a: usize, n: usize, row: Row)
    requires { (a + n ≤ usize_max) × (row.start + 6 ≤ usize_max) × (6 * n ≤ length h.old) }
    ensures { h.new ≡ add_band_of a n row h.old }
{
    let start = row.start;
    for i in 0..6 {
        if is_active(a, n, start + i) {
            add_products(h, a, row, i);
        }
    }
}

// Adds the row's shares to one axis of the right sides.
fn add_axis(r: &mut [f64], a: usize, n: usize, d: usize, row: Row, axis: usize)
    requires { (axis < d) × (d ≤ 16) × (a + n ≤ usize_max) × (row.start + 6 ≤ usize_max) × (n * d ≤ length r.old) }
    ensures { r.new ≡ shares_of a n d row axis r.old }
{
    let start = row.start;
    let residual = row.residual[axis];
    for i in 0..6 {
        if is_active(a, n, start + i) {
            let k = (start + i - a) * d + axis;
            r[k] = r[k] + row.basis[i] * residual;
        }
    }
}

// Adds the row's shares to the right sides of the n active controls from a on.
#[tactic(auto, using(crate::proofs::Turns::loops), unfolding(crate::specs::Add::add_right_of))]
fn add_right(r: &mut [f64], a: usize, n: usize, d: usize, row: Row)
    requires { (d ≤ 16) × (a + n ≤ usize_max) × (row.start + 6 ≤ usize_max) × (n * d ≤ length r.old) }
    ensures { r.new ≡ add_right_of a n d row r.old }
{
    for axis in 0..d {
        add_axis(r, a, n, d, row, axis);
    }
}

// Adds a fitting row to the system of the n active controls from a on. Controls outside that range
// stay as they are: they count in the residual only.
pub fn add(sys: &mut [f64], a: usize, n: usize, d: usize, row: Row)
    requires { (length sys.old ≡ size_of n d) × (d ≤ 16) × (a + n ≤ usize_max) × (row.start + 6 ≤ usize_max) }
    ensures { system_of n d sys.new ≡ add_of a n d row (system_of n d sys.old) }
{
    let right = 6 * n;
    let scales = right + n * d;
    add_band(&mut sys[0..right], a, n, row);
    add_right(&mut sys[right..scales], a, n, d, row);
}

// Why a system has no solution: a scale or a pivot that is not finite or not above 0, or a solution that is not finite.
#[derive(Clone, Copy, Debug, PartialEq, Eq)]
pub enum Unsolved {
    BadDiagonal,
    BadPivot,
    BadSolution,
}

impl Unsolved {
    // Document 01's number.
    pub fn number(self) -> usize
        ensures { result ≡ refusal_number self }
    {
        match self {
            Unsolved::BadDiagonal => 9,
            Unsolved::BadPivot => 10,
            Unsolved::BadSolution => 11,
        }
    }
}

// Whether x is not finite or, where a number above 0 is asked for, not above 0.
#[tactic(auto, unfolding(crate::specs::Solve::unfit_of))]
fn unfit(x: f64, positive: bool) -> bool
    ensures { result ≡ unfit_of positive x }
{
    !float::is_finite(x) || (positive && x <= 0.0)
}

// Whether any of the cells is unfit.
fn any_unfit(s: &[f64], positive: bool) -> bool
    ensures { result ≡ any_unfit_of positive s.now }
{
    s.iter().any(|x| unfit(*x, positive))
}

// The scales become the roots of the diagonal.
fn roots(sys: &mut [f64], n: usize, d: usize)
    requires { length sys.old ≡ size_of n d }
    ensures { system_of n d sys.new ≡ roots_of n (system_of n d sys.old) }
{
    let scales = 6 * n + n * d;
    for i in 0..n {
        sys[scales + i] = float::sqrt(sys[6 * i]);
    }
}

// Row i of the band is scaled.
fn scale_row(sys: &mut [f64], n: usize, d: usize, i: usize)
    requires { (length sys.old ≡ size_of n d) × (i < n) }
    ensures { system_of n d sys.new ≡ scale_row_of i (system_of n d sys.old) }
{
    let scales = 6 * n + n * d;
    for k in 0..i.min(5) + 1 {
        sys[6 * i + k] = sys[6 * i + k] / (sys[scales + i] * sys[scales + (i - k)]);
    }
}

// Row i of the right sides is divided by its scale.
fn divide_row(sys: &mut [f64], n: usize, d: usize, i: usize)
    requires { (length sys.old ≡ size_of n d) × (i < n) × (i * d + d ≤ n * d) }
    ensures { system_of n d sys.new ≡ divide_row_of d i (system_of n d sys.old) }
{
    let right = 6 * n;
    let scale = sys[right + n * d + i];
    for axis in 0..d {
        sys[right + (i * d + axis)] = sys[right + (i * d + axis)] / scale;
    }
}

// What is left of h[i][i - j] when the products of the columns before j are taken away.
#[tactic(auto, using(crate::proofs::Turns::loops), unfolding(crate::specs::Solve::reduced_of, crate::specs::Solve::reduce_of))]
fn reduced(h: &[f64], i: usize, j: usize) -> f64
    requires { (j ≤ i) × (i ≤ j + 5) × (6 * i + 6 ≤ length h.now) }
    ensures { result ≡ reduced_of h.now i j }
{
    let mut v = h[6 * i + (i - j)];
    for k in i.saturating_sub(5)..j {
        v -= h[6 * i + (i - k)] * h[6 * j + (j - k)];
    }
    v
}

// Row i of the factor, without the diagonal.
#[tactic(auto, using(crate::proofs::Turns::loops), unfolding(crate::specs::Solve::eliminated_of, crate::specs::Solve::eliminate_of))]
fn eliminate(h: &mut [f64], i: usize)
    requires { 6 * i + 6 ≤ length h.old }
    ensures { h.new ≡ eliminated_of i h.old }
{
    for j in i.saturating_sub(5)..i {
        let v = reduced(h, i, j);
        h[6 * i + (i - j)] = v / h[6 * j];
    }
}

// The band becomes its factor, row by row, up to the first pivot that is unfit. Whether none is.
fn factor(h: &mut [f64], n: usize) -> bool
    requires { 6 * n ≤ length h.old }
    ensures value { result ≡ (factor_of n h.old).whole }
    ensures h_after { h.new ≡ (factor_of n h.old).band }
{
    for i in 0..n {
        eliminate(h, i);
        let pivot = reduced(h, i, i);
        if unfit(pivot, true) {
            return false;
        }
        h[6 * i] = float::sqrt(pivot);
    }
    true
}

// One right side of control i, less the products with those before it.
fn forward_value(sys: &[f64], n: usize, d: usize, i: usize, axis: usize) -> f64
    requires { (length sys.now ≡ size_of n d) × (i < n) × (i * d + d ≤ n * d) × (axis < d) }
    ensures { result ≡ forward_value_of d i axis (system_of n d sys.now) }
{
    let right = 6 * n;
    let mut v = sys[right + (i * d + axis)];
    for k in 1..i.min(5) + 1 {
        v -= sys[6 * i + k] * sys[right + ((i - k) * d + axis)];
    }
    v
}

// Forward substitution in row i. `back_row` differs in the value alone; the value as a closure would have to be told, in its clauses, of
// the cells that it reads and the loop writes, which is no plainer than the three lines.
fn forward_row(sys: &mut [f64], n: usize, d: usize, i: usize)
    requires { (length sys.old ≡ size_of n d) × (i < n) × (i * d + d ≤ n * d) }
    ensures { system_of n d sys.new ≡ forward_row_of d i (system_of n d sys.old) }
{
    let right = 6 * n;
    for axis in 0..d {
        let v = forward_value(sys, n, d, i, axis);
        sys[right + (i * d + axis)] = v / sys[6 * i];
    }
}

// One right side of control i, less the products with those after it.
fn back_value(sys: &[f64], n: usize, d: usize, i: usize, axis: usize) -> f64
    requires { (length sys.now ≡ size_of n d) × (i < n) × (i * d + d ≤ n * d) × (axis < d) }
    ensures { result ≡ back_value_of n d i axis (system_of n d sys.now) }
{
    let right = 6 * n;
    let mut v = sys[right + (i * d + axis)];
    for j in i + 1..(i + 6).min(n) {
        v -= sys[6 * j + (j - i)] * sys[right + (j * d + axis)];
    }
    v
}

// Back substitution in row i.
fn back_row(sys: &mut [f64], n: usize, d: usize, i: usize)
    requires { (length sys.old ≡ size_of n d) × (i < n) × (i * d + d ≤ n * d) }
    ensures { system_of n d sys.new ≡ back_row_of n d i (system_of n d sys.old) }
{
    let right = 6 * n;
    for axis in 0..d {
        let v = back_value(sys, n, d, i, axis);
        sys[right + (i * d + axis)] = v / sys[6 * i];
    }
}

// The band and the right sides are scaled. This and the loops over all rows below are one line each, which a step as a closure would not
// shorten.
fn scale(sys: &mut [f64], n: usize, d: usize)
    requires { length sys.old ≡ size_of n d }
    ensures { system_of n d sys.new ≡ scale_of n d (system_of n d sys.old) }
{
    for i in 0..n {
        scale_row(sys, n, d, i);
        divide_row(sys, n, d, i);
    }
}

// Forward substitution.
fn forward(sys: &mut [f64], n: usize, d: usize)
    requires { length sys.old ≡ size_of n d }
    ensures { system_of n d sys.new ≡ forward_of n d (system_of n d sys.old) }
{
    for i in 0..n {
        forward_row(sys, n, d, i);
    }
}

// Back substitution.
fn backward(sys: &mut [f64], n: usize, d: usize)
    requires { length sys.old ≡ size_of n d }
    ensures { system_of n d sys.new ≡ backward_of n d (system_of n d sys.old) }
{
    for i in (0..n).rev() {
        back_row(sys, n, d, i);
    }
}

// The solution of the scaled system becomes that of the system.
fn unscale(sys: &mut [f64], n: usize, d: usize)
    requires { length sys.old ≡ size_of n d }
    ensures { system_of n d sys.new ≡ unscale_of n d (system_of n d sys.old) }
{
    for i in 0..n {
        divide_row(sys, n, d, i);
    }
}

// The two substitutions, once the band is factored.
fn finish(sys: &mut [f64], n: usize, d: usize) -> Result<(), Unsolved>
    requires { length sys.old ≡ size_of n d }
    ensures result_value { number_of result ≡ (finish_of n d (system_of n d sys.old)).number }
    ensures sys_after { system_of n d sys.new ≡ (finish_of n d (system_of n d sys.old)).system }
{
    forward(sys, n, d);
    backward(sys, n, d);
    unscale(sys, n, d);
    let right = 6 * n;
    let scales = right + n * d;
    if any_unfit(&sys[right..scales], false) {
        return Err(Unsolved::BadSolution);
    }
    Ok(())
}

// Solves the system in place: the right sides become the increments of the active controls. On a
// refusal the cells hold what the work had come to.
pub fn solve(sys: &mut [f64], n: usize, d: usize) -> Result<(), Unsolved>
    requires { length sys.old ≡ size_of n d }
    ensures result_value { number_of result ≡ (solve_of n d (system_of n d sys.old)).number }
    ensures sys_after { system_of n d sys.new ≡ (solve_of n d (system_of n d sys.old)).system }
{
    roots(sys, n, d);
    let right = 6 * n;
    let scales = right + n * d;
    let end = scales + n;
    if any_unfit(&sys[scales..end], true) {
        return Err(Unsolved::BadDiagonal);
    }
    scale(sys, n, d);
    if !factor(&mut sys[0..right], n) {
        return Err(Unsolved::BadPivot);
    }
    finish(sys, n, d)
}
