// An added point goes into the mesh (bulk_load.rs, `single_bulk_insertion_step` from its first change on): the new
// vertex and its first face, `legalize_edge`, and as many faces to the left and to the right as were decided. What is
// left is `add_turns` of the crate `apply`; `add-turns` in its ApplyLaws says that this is `add_vertex`, whose loops test
// the mesh as it then stands.
#![tactic(auto)]

ghost use Rattle.std.specs.Prelude.{◌≡◌, length};
ghost use Rattle.corner.specs.CornerRows.{extended_of};
ghost use Rattle.dcel.specs.Rows.{links_of, halves_of, position_of, There};
ghost use Rattle.apply.specs.Apply.{face_edge, first_face, walk_turn_of, walk_turns, add_turns};
ghost use Rattle.apply.specs.ApplyRows.{FirstReady, beside_in, TurnReady, TurnsReady, AddReady, walking_of, applied_of};

use apply::{Entered, Walked};
use corner::Extension;
use mesh::Counts;
use ring::Side;

// The new vertex with its first face over the outer half-edge e, and that edge legalized.
pub fn first_face(
    positions: &[i32],
    outs: &mut [u32],
    halves: &mut [u32],
    faces: &mut [u32],
    pending: &mut [u32],
    counts: Counts,
    e: u32,
) -> Extension
    requires { FirstReady counts positions.now outs.old halves.old faces.old pending.old e }
    ensures { extended_of outs.new halves.new faces.new result
        ≡ first_face (length pending.old) (position_of positions.now) counts
        (links_of outs.old halves.old faces.old) e }
{
    let after = dcel_operations::create_new_face_adjacent_to_edge(outs, halves, faces, counts, e);
    let done = legalize::legalize_edge(positions, outs, halves, faces, pending, after, e, 0);
    Extension {
        counts: after,
        faces: 1,
        flips: done.flips,
        full: done.full,
    }
}

// The boundary edge before the current one, or after it.
pub fn beside(halves: &[u32], e: u32, side: Side) -> u32
    requires { There halves.now e }
    ensures { result ≡ beside_in side (halves_of halves.now) e }
{
    match side {
        Side::Left => dcel::prev(halves, e),
        Side::Right => dcel::next(halves, e),
    }
}

// The one of the current edge e and the edge d beside it that comes first along the boundary: a face between them is made there.
pub fn face_edge(side: Side, e: u32, d: u32) -> u32
    ensures { result ≡ face_edge side e d }
{
    match side {
        Side::Left => d,
        Side::Right => e,
    }
}

// One turn of a loop: the face between the current edge and the one beside it, and both legalized.
fn turn(
    positions: &[i32],
    outs: &mut [u32],
    halves: &mut [u32],
    faces: &mut [u32],
    pending: &mut [u32],
    side: Side,
    walked: Walked,
) -> Walked
    requires { TurnReady side positions.now outs.old halves.old faces.old pending.old walked }
    ensures { walking_of outs.new halves.new faces.new result
        ≡ walk_turn_of side (length pending.old) (position_of positions.now)
        (walking_of outs.old halves.old faces.old walked) }
{
    let added = walked.added;
    let e = walked.edge;
    let d = beside(halves, e, side);
    let at = face_edge(side, e, d);
    let new = 2 * added.counts.edges + 1;
    let after = corner::close_corner(
        positions,
        outs,
        halves,
        faces,
        pending,
        added,
        at,
        e / 2,
        d / 2,
    );
    Walked {
        added: after,
        edge: new,
    }
}

// So many turns, unless a flip is refused.
fn walk(
    positions: &[i32],
    outs: &mut [u32],
    halves: &mut [u32],
    faces: &mut [u32],
    pending: &mut [u32],
    side: Side,
    walked: Walked,
    count: u32,
) -> Walked
    requires { TurnsReady side positions.now outs.old halves.old faces.old pending.old walked count }
    ensures { walking_of outs.new halves.new faces.new result
        ≡ walk_turns side (length pending.old) (position_of positions.now) count
        (walking_of outs.old halves.old faces.old walked) }
{
    let mut now = walked;
    for _i in 0..count {
        if now.added.full {
            return now;
        }
        now = turn(positions, outs, halves, faces, pending, side, now);
    }
    now
}

// All of it, over the located edge e. The new vertex has its position already.
pub fn add_vertex(
    positions: &[i32],
    outs: &mut [u32],
    halves: &mut [u32],
    faces: &mut [u32],
    pending: &mut [u32],
    counts: Counts,
    e: u32,
    left: u32,
    right: u32,
) -> Entered
    requires { AddReady counts positions.now outs.old halves.old faces.old pending.old e left right }
    ensures { applied_of outs.new halves.new faces.new result
        ≡ add_turns (length pending.old) (position_of positions.now) counts
        (links_of outs.old halves.old faces.old) e left right }
{
    let to = 2 * counts.edges + 2 + 1;
    let from = 2 * counts.edges + 1;
    let first = first_face(positions, outs, halves, faces, pending, counts, e);
    let before = walk(
        positions,
        outs,
        halves,
        faces,
        pending,
        Side::Left,
        Walked {
            added: first,
            edge: to,
        },
        left,
    );
    let after = walk(
        positions,
        outs,
        halves,
        faces,
        pending,
        Side::Right,
        Walked {
            added: before.added,
            edge: from,
        },
        right,
    );
    Entered {
        added: after.added,
        leftedge: before.edge,
        rightedge: after.edge,
    }
}
