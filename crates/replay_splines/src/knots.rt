// Cases of crates `sorting` and `seed`.
ghost use Rattle.listing.specs.Lines.{Unanswered};

use listing::list::Head;
use listing::output::Output;
use seed::Waypoints;

// Kind 60, whole numbers d and n: the number of seeded knots, and the knots.
pub fn seeded(head: Head, cells: &[f64], work: &mut [f64], out: &mut Output) -> Option<()>
    ensures { Unanswered out.old out.new result }
{
    let d = head.wholes[0] as usize;
    let n = head.wholes[1] as usize;
    if 16 < d || 65536 < n {
        return None;
    }
    let knots = n + n * d;
    if cells.len() != knots || work.len() < knots + 3 * n {
        return None;
    }
    window::copy(work, cells);
    let count = seed::seed(
        work,
        Waypoints {
            parameters: 0,
            points: n,
            samples: n,
            axes: d,
            knots,
        },
    );
    out.text(b"seed");
    out.whole(count as u64);
    out.first_cells(&work[knots..], count);
    out.end();
    Some(())
}

// How many regions the locations x have, on a spline with the knots t and m controls.
fn count_regions(t: &[f64], m: usize, x: &[f64]) -> usize {
    let mut count = 0;
    let mut from = 0;
    // From region to region: each says where the next begins.
    while from < x.len() {
        let region = seed::next_region(t, m, x, from);
        from = region.next;
        count += 1;
    }
    count
}

// The first and the last control, not counted, of each region.
fn ends(t: &[f64], m: usize, x: &[f64], out: &mut Output) {
    let mut from = 0;
    // From region to region: each says where the next begins.
    while from < x.len() {
        let region = seed::next_region(t, m, x, from);
        out.whole(region.a as u64);
        out.whole(region.z as u64);
        from = region.next;
    }
}

// Kind 61, whole numbers knots and count: the number of regions, and the ends of each.
pub fn regions(head: Head, cells: &[f64], out: &mut Output) -> Option<()>
    ensures { Unanswered out.old out.new result }
{
    let knots = head.wholes[0] as usize;
    let count = head.wholes[1] as usize;
    if knots < 6 || cells.len() < knots || cells.len() - knots != count {
        return None;
    }
    let (t, x) = cells.split_at(knots);
    out.text(b"regions");
    out.whole(count_regions(t, knots - 6, x) as u64);
    ends(t, knots - 6, x, out);
    out.end();
    Some(())
}

// Kind 62: the number of cells once sorted and without repeats, and these.
pub fn sort_dedup(cells: &[f64], work: &mut [f64], out: &mut Output) -> Option<()>
    ensures { Unanswered out.old out.new result }
{
    let n = cells.len();
    if work.len() < n {
        return None;
    }
    window::copy(work, cells);
    sorting::sort(&mut work[..n]);
    let count = sorting::dedup(&mut work[..n]);
    out.text(b"sort_dedup");
    out.whole(count as u64);
    out.first_cells(work, count);
    out.end();
    Some(())
}
