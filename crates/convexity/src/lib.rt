// `fix_convexity` of bulk_load.rs, and its passes in a finish. The Rust keeps the half-edges that it has walked over in
// `convex_edges`; they are the chain behind the current half-edge, so their number is enough (specs/StackLaws.antt).
// What is left is `convexity` of specs/Convexity.antt; its laws are in specs/ConvexityLaws.antt.
#![tactic(auto)]

ghost use Rattle.std.specs.Prelude.{not, ◌||◌, List, ◌≡◌, ℕ, ◌+◌, eqb, length};
ghost use Rattle.corner.specs.CornerRows.{extended_of};
ghost use Rattle.dcel.specs.Rows.{links_of, position_of};
ghost use Rattle.mesh.specs.Area.{boundary_length};
ghost use Rattle.convexity.specs.Convexity.{turns_left_at, fix_convexity, convexity};
ghost use Rattle.convexity.specs.Walk.{left_behind, closed_behind, close_all_behind};
ghost use Rattle.convexity.specs.ConvexityRows.{walk_of, CornerReady, BehindReady, CloseBehindReady, WalkReady, StartReady, MeshReady};

use corner::Extension;
use mesh::Counts;

// What has become of a mesh, and how many half-edges of the walk are behind the current one: `convex_edges.len()`.
#[derive(Clone, Copy)]
pub struct Walked {
    pub added: Extension,
    pub depth: u32,
}

// Whether the corner of edge1 and edge2 after it turns strictly left.
fn turns_left_at(positions: &[i32], halves: &[u32], edge1: u32, edge2: u32) -> bool
    requires { CornerReady positions.now halves.now edge1 edge2 }
    ensures { (o a : List ℕ)
        → result ≡ turns_left_at (links_of o halves.now a) (position_of positions.now) edge1 edge2 }
{
    let a = dcel::origin(halves, edge1);
    let b = dcel::to(halves, edge1);
    let c = dcel::to(halves, edge2);
    let p1 = dcel::position(positions, a);
    let p2 = dcel::position(positions, b);
    let target = dcel::position(positions, c);
    math::side_query(p1, p2, target) > 0
}

// Whether the two half-edges behind the current one are a corner to be closed.
fn left_behind(positions: &[i32], halves: &[u32], full: bool, current: u32, depth: u32) -> bool
    requires { BehindReady positions.now halves.now current }
    ensures { (o a : List ℕ)
        → result ≡ not (full || not
        (left_behind (position_of positions.now) (links_of o halves.now a) current depth)) }
{
    if full {
        return false;
    }
    if depth < 2 {
        return false;
    }
    let edge2 = dcel::prev(halves, current);
    let edge1 = dcel::prev(halves, edge2);
    turns_left_at(positions, halves, edge1, edge2)
}

// Closes it: a new face, and its two old edges legalized, the second first.
fn close_behind(
    positions: &[i32],
    outs: &mut [u32],
    halves: &mut [u32],
    faces: &mut [u32],
    pending: &mut [u32],
    added: Extension,
    current: u32,
) -> Extension
    requires { CloseBehindReady positions.now outs.old halves.old faces.old pending.old added current }
    ensures { extended_of outs.new halves.new faces.new result
        ≡ closed_behind (length pending.old) (position_of positions.now)
        (extended_of outs.old halves.old faces.old added) current }
{
    let edge2 = dcel::prev(halves, current);
    let edge1 = dcel::prev(halves, edge2);
    corner::close_corner(
        positions,
        outs,
        halves,
        faces,
        pending,
        added,
        edge1,
        edge1 / 2,
        edge2 / 2,
    )
}

// The inner loop of `fix_convexity`.
fn close_all_behind(
    positions: &[i32],
    outs: &mut [u32],
    halves: &mut [u32],
    faces: &mut [u32],
    pending: &mut [u32],
    added: Extension,
    current: u32,
    depth: u32,
) -> Walked
    requires { WalkReady positions.now outs.old halves.old faces.old pending.old added current depth }
    ensures { (n : ℕ)
        → depth + n
        ≡ boundary_length added.counts (links_of outs.old halves.old faces.old) + 1
        → walk_of outs.new halves.new faces.new result.added current result.depth n
        ≡ close_all_behind (length pending.old) (position_of positions.now)
        (walk_of outs.old halves.old faces.old added current depth n) }
{
    let mut now = added;
    let mut behind = depth;
    while left_behind(positions, halves, now.full, current, behind) {
        now = close_behind(positions, outs, halves, faces, pending, now, current);
        behind -= 1;
    }
    Walked {
        added: now,
        depth: behind,
    }
}

// One pass: a turn for each half-edge of the boundary, and one more.
pub fn fix_convexity(
    positions: &[i32],
    outs: &mut [u32],
    halves: &mut [u32],
    faces: &mut [u32],
    pending: &mut [u32],
    added: Extension,
) -> Extension
    requires { StartReady positions.now outs.old halves.old faces.old pending.old added }
    ensures { extended_of outs.new halves.new faces.new result
        ≡ fix_convexity (length pending.old) (position_of positions.now)
        (extended_of outs.old halves.old faces.old added) }
{
    let mut now = added;
    let mut current = dcel::adjacent(faces, 0);
    let mut depth = 0;
    let turns = 3 * added.counts.vertices - 2 - added.counts.edges;
    for turn in 0..turns {
        if now.full {
            return now;
        }
        current = dcel::next(halves, current);
        let walked = close_all_behind(
            positions,
            outs,
            halves,
            faces,
            pending,
            now,
            current,
            depth + 1,
        );
        now = walked.added;
        depth = walked.depth;
    }
    now
}

// Passes until one adds no face, or a flip is refused.
pub fn convexity(
    positions: &[i32],
    outs: &mut [u32],
    halves: &mut [u32],
    faces: &mut [u32],
    pending: &mut [u32],
    counts: Counts,
) -> Extension
    requires { MeshReady positions.now outs.old halves.old faces.old pending.old counts }
    ensures { extended_of outs.new halves.new faces.new result
        ≡ convexity (length pending.old) counts (position_of positions.now)
        (links_of outs.old halves.old faces.old) }
{
    let mut now = Extension {
        counts,
        faces: 0,
        flips: 0,
        full: false,
    };
    loop {
        let before = now.faces;
        now = fix_convexity(positions, outs, halves, faces, pending, now);
        if now.full || now.faces == before {
            return now;
        }
    }
}
