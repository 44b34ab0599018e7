// The closing pass: the edges by rising number, turn after turn, until a turn flips nothing. It is fed the mesh alone,
// with no pending list.
// What it leaves is `closing_pass` of specs/Closing.antt; that it ends, and what it leaves, is in specs/ClosingLaws.antt.
#![tactic(auto)]

ghost use Rattle.std.specs.Prelude.{◌≡◌, ◌+◌, ◌<◌, ◌≤◌, ◌^◌};
ghost use Rattle.circle_test.specs.GoodRows.{GoodRows, CircleReady};
ghost use Rattle.dcel.specs.Rows.{links_of, position_of};
ghost use Rattle.dcel_operations.specs.Flip.{FlipReady};
ghost use Rattle.closing.specs.Closing.{close_edge, close_below, closing_pass};
ghost use Rattle.closing.specs.ClosingRows.{closing_of, Closable};

use mesh::Counts;

// Flips edge u where it breaks the circle rule, and counts the flip.
fn close_edge(
    positions: &[i32],
    outs: &mut [u32],
    halves: &mut [u32],
    faces: &mut [u32],
    u: u32,
    flips: u64,
) -> u64
    requires { CircleReady positions.now halves.old u
        × FlipReady outs.old halves.old faces.old u
        × (flips + 1 < 2 ^ 64) }
    ensures { closing_of outs.new halves.new faces.new result
        ≡ close_edge (position_of positions.now) u
        (closing_of outs.old halves.old faces.old flips) }
{
    if circle_test::should_flip(positions, halves, u) {
        dcel_operations::flip_cw(outs, halves, faces, u);
        return flips + 1;
    }
    flips
}

// One turn.
fn close_turn(
    positions: &[i32],
    outs: &mut [u32],
    halves: &mut [u32],
    faces: &mut [u32],
    counts: Counts,
    flips: u64,
) -> u64
    requires { Closable counts positions.now outs.old halves.old faces.old flips }
    ensures { closing_of outs.new halves.new faces.new result
        ≡ close_below (position_of positions.now) counts.edges
        (closing_of outs.old halves.old faces.old flips) }
{
    let mut made = flips;
    let mut u = 0;
    // no `for`: u goes on by a block
    while u < counts.edges {
        // edges that are not flipped are mostly passed over together
        let v = circle_scan::unbroken(positions, halves, u, counts.edges);
        if v > u {
            u = v;
        } else {
            made = close_edge(positions, outs, halves, faces, u, made);
            u += 1;
        }
    }
    made
}

// All turns, and the number of flips.
pub fn closing_pass(
    positions: &[i32],
    outs: &mut [u32],
    halves: &mut [u32],
    faces: &mut [u32],
    counts: Counts,
) -> u64
    requires { GoodRows counts positions.now outs.old halves.old faces.old × (counts.faces ≤ 2 ^ 25) }
    ensures { closing_of outs.new halves.new faces.new result
        ≡ closing_pass counts (position_of positions.now)
        (links_of outs.old halves.old faces.old) }
{
    let mut flips = 0;
    loop {
        let before = flips;
        flips = close_turn(positions, outs, halves, faces, counts, before);
        if flips == before {
            return flips;
        }
    }
}
