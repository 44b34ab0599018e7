// A new vertex outside of the boundary: `insert_outside_of_convex_hull` of triangulation_ext.rs. Its first face over a
// boundary edge that it sees, and then to the left and to the right a face over each further edge that it sees, each
// followed by `legalize_edge` of the covered edge. What is left is `insert_outside` of skipped's specs/Insert.antt; its
// laws are in skipped's specs/Outside.antt.
#![tactic(auto)]

ghost use Rattle.std.specs.Prelude.{not, List, ◌≡◌, ℕ, length};
ghost use Rattle.apply.specs.ApplyRows.{walking_of};
ghost use Rattle.corner.specs.CornerRows.{extended_of};
ghost use Rattle.dcel.specs.Rows.{links_of, position_of};
ghost use Rattle.ring.specs.Chain.{sees_edge};
ghost use Rattle.skipped.specs.Insert.{cover_edge, outside_ends, outside_turn, outside_walk, insert_outside};
ghost use Rattle.insert_outside.specs.OutsideRows.{CoverReady, SightReady, BesideReady, TurnReady, WalkReady, OutsideReady};

use apply::Walked;
use corner::Extension;
use math::Point;
use mesh::Counts;
use ring::Side;

// The face between e and the half-edge after it, and then d legalized, which is the one of the two that was not at the new vertex.
fn cover_edge(
    positions: &[i32],
    outs: &mut [u32],
    halves: &mut [u32],
    faces: &mut [u32],
    pending: &mut [u32],
    added: Extension,
    e: u32,
    d: u32,
) -> Extension
    requires { CoverReady positions.now outs.old halves.old faces.old pending.old added e d }
    ensures { extended_of outs.new halves.new faces.new result
        ≡ cover_edge (length pending.old) (position_of positions.now)
        (extended_of outs.old halves.old faces.old added) e d }
{
    let new = dcel_operations::create_single_face_between_edge_and_next(
        halves,
        faces,
        added.counts,
        e,
    );
    let after = new.counts;
    let done = legalize::legalize_edge(
        positions,
        outs,
        halves,
        faces,
        pending,
        after,
        d,
        added.flips,
    );
    Extension {
        counts: after,
        faces: added.faces + 1,
        flips: done.flips,
        full: done.full,
    }
}

// Whether the point is strictly left of the half-edge d.
fn sees_edge(positions: &[i32], halves: &[u32], d: u32, point: Point) -> bool
    requires { SightReady positions.now halves.now d point }
    ensures { (o a : List ℕ)
        → result ≡ sees_edge (links_of o halves.now a) (position_of positions.now) point d }
{
    let u = dcel::origin(halves, d);
    let w = dcel::to(halves, d);
    let from = dcel::position(positions, u);
    let to = dcel::position(positions, w);
    math::side_query(from, to, point) > 0
}

// Whether a loop goes on: no flip was refused, and the edge beside the current one is seen.
pub fn sees_beside(
    positions: &[i32],
    halves: &[u32],
    side: Side,
    walked: Walked,
    point: Point,
) -> bool
    requires { BesideReady side positions.now halves.now walked.edge point }
    ensures { (o a : List ℕ)
        → result ≡ not (outside_ends side (position_of positions.now) point
        (walking_of o halves.now a walked)) }
{
    if walked.added.full {
        return false;
    }
    let d = apply_rows::beside(halves, walked.edge, side);
    sees_edge(positions, halves, d, point)
}

// One turn of a loop: the face between the current edge and the one beside it, which is then legalized. The new edge is the current one.
fn outside_turn(
    positions: &[i32],
    outs: &mut [u32],
    halves: &mut [u32],
    faces: &mut [u32],
    pending: &mut [u32],
    side: Side,
    walked: Walked,
) -> Walked
    requires { TurnReady side positions.now outs.old halves.old faces.old pending.old walked }
    ensures { walking_of outs.new halves.new faces.new result
        ≡ outside_turn side (length pending.old) (position_of positions.now)
        (walking_of outs.old halves.old faces.old walked) }
{
    let added = walked.added;
    let e = walked.edge;
    let d = apply_rows::beside(halves, e, side);
    let at = apply_rows::face_edge(side, e, d);
    let new = 2 * added.counts.edges + 1;
    let after = cover_edge(positions, outs, halves, faces, pending, added, at, d);
    Walked {
        added: after,
        edge: new,
    }
}

// One of the two loops, until an edge is not seen or a flip is refused. Each turn makes the boundary shorter by one.
fn outside_walk(
    positions: &[i32],
    outs: &mut [u32],
    halves: &mut [u32],
    faces: &mut [u32],
    pending: &mut [u32],
    side: Side,
    walked: Walked,
    point: Point,
) -> Walked
    requires { WalkReady side positions.now outs.old halves.old faces.old pending.old walked point }
    ensures { walking_of outs.new halves.new faces.new result
        ≡ outside_walk side (length pending.old) (position_of positions.now) point
        (walking_of outs.old halves.old faces.old walked) }
{
    let mut now = walked;
    while sees_beside(positions, halves, side, now, point) {
        now = outside_turn(positions, outs, halves, faces, pending, side, now);
    }
    now
}

// All of it, over the boundary edge e, which the point sees. The new vertex has its position already.
pub fn insert_outside(
    positions: &[i32],
    outs: &mut [u32],
    halves: &mut [u32],
    faces: &mut [u32],
    pending: &mut [u32],
    counts: Counts,
    point: Point,
    e: u32,
) -> Extension
    requires { OutsideReady counts positions.now outs.old halves.old faces.old pending.old point e }
    ensures { extended_of outs.new halves.new faces.new result
        ≡ insert_outside (length pending.old) (position_of positions.now) counts
        (links_of outs.old halves.old faces.old) point e }
{
    let to = 2 * counts.edges + 2 + 1;
    let from = 2 * counts.edges + 1;
    let first = apply_rows::first_face(positions, outs, halves, faces, pending, counts, e);
    let left = outside_walk(
        positions,
        outs,
        halves,
        faces,
        pending,
        Side::Left,
        Walked {
            added: first,
            edge: to,
        },
        point,
    );
    let right = outside_walk(
        positions,
        outs,
        halves,
        faces,
        pending,
        Side::Right,
        Walked {
            added: left.added,
            edge: from,
        },
        point,
    );
    right.added
}
