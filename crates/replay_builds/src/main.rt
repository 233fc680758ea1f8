// Requests of the list, built: reads cases of kind `build` from standard input, calls `build` on lent
// parts of the buffers, and writes the oracle's line for each, with a further word where a cell that is
// to stay or to be cleared is not as it should be. oracle/README.md has the form of a list and of the
// lines.
#![tactic(auto)]

use listing::turn;
use replay_requests::parts::Lent;

// 400 segments and waypoints of 16 axes fit.
fn main() {
    let mut cells = [0.0; 65536];
    let mut work = [0.0; 131072];
    let mut breaks = [0.0; 4096];
    let mut coefficients = [0.0; 65536];
    let mut other_breaks = [0.0; 4096];
    let mut other_coefficients = [0.0; 65536];
    let mut errors = [0.0; 64];
    let mut bytes = io::buffer();
    turn::run(&mut bytes, &mut cells, |head, cells, out| {
        let buffers = Lent {
            work: &mut work[..],
            breaks: &mut breaks[..],
            coefficients: &mut coefficients[..],
            other_breaks: &mut other_breaks[..],
            other_coefficients: &mut other_coefficients[..],
            errors: &mut errors[..],
        };
        replay_lending::answer(head, cells, buffers, out)
    });
}
