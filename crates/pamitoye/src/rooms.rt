// The lengths of the slices to lend: document 01, "the lent room needed".
ghost use Rattle.std.specs.Prelude.{◌≡◌};
ghost use Rattle.pamitoye.specs.Rooms.{Enough, room_number, room_after};

// The cells of work, breaks, coefficients, other breaks, other coefficients and errors. Slices of at
// least these lengths are never too short (19) for such a request.
#[unsafe(no_mangle)]
pub extern "C" fn pamitoye_room(
    d: usize,
    n: usize,
    max_segments: usize,
    room: &mut [usize; 6],
) -> u64
    ensures value { result ≡ room_number d n max_segments }
    ensures room_after { room.new ≡ room_after d n max_segments room.old }
    ensures enough { result ≡ 0 → Enough d n max_segments room.new }
{
    if 16 < d || 20000 < n || 20000 < max_segments {
        return 18;
    }
    let e = n.max(max_segments) + 16;
    *room = [
        e * (16 * d + 32),
        max_segments + 1,
        max_segments * (6 * d) + max_segments,
        n,
        n * (6 * d) + n,
        d,
    ];
    0
}
