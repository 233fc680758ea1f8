// The heights of a segment, step after step.
ghost use Rattle.std.specs.Prelude.{cond, map, ◌≡◌, ◌*◌, ◌≤◌, ltb, length};
ghost use Rattle.window.specs.Rows.{list_of};
ghost use Rattle.heights.specs.Weights.{weight_table};
ghost use Rattle.heights.specs.Height.{height_of};
ghost use Rattle.heights.specs.Lifted.{lowered, Lifted};

// 1 where the sum stands for a number below 0: a sum of weighted controls above -2,000,000, with 2^39 for the
// rounding, lies 2,000,000 · 2^40 + 2^39 above that of the controls themselves, since each row of weights
// totals 2^40.
fn one_below(sum: u64) -> u64
    ensures { (result ≡ cond (ltb sum 2199023805307813888) 1 0) × (result ≤ 1) }
{
    (sum < 2199023805307813888) as u64
}

// The height at step j, as the number by which it lies above -2,000,000; so do the six controls. Halves go
// away from zero: up, and from a sum below 0 down.
pub fn height(weights: &[u64], controls: &[u64], j: usize) -> u64
    requires { (j ≤ 256) × (weights.now ≡ weight_table) × Lifted controls.now }
    ensures { (lowered result ≡ height_of (map lowered controls.now) j) × (result ≤ 4000000) }
{
    let mut sum = 0x80_0000_0000u64;
    for k in 0..6 {
        sum += controls[k] * weights[6 * j + k];
    }
    (sum - one_below(sum)) / 0x100_0000_0000
}

// The whole number that is kept as n.
fn lower(n: u64) -> i32
    requires { n ≤ 4000000 }
    ensures { result ≡ lowered n }
{
    (n as i32) - 2000000
}

// The heights at steps 0 to 256.
pub(crate) fn put_steps(weights: &[u64], controls: &[u64], out: &mut [i32])
    requires { (length out.old ≡ 257) × (weights.now ≡ weight_table) × Lifted controls.now }
    ensures { out.new ≡ list_of 257 (height_of (map lowered controls.now)) }
{
    for j in 0..257 {
        out[j] = lower(height(weights, controls, j));
    }
}
