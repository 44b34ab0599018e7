// The first point off a line of points: `insert_outside_of_convex_hull` of triangulation_ext.rs where the mesh has no
// inner face yet. What is left is `insert_outside` of skipped's specs/Insert.antt, however many pending entries it is given:
// an edge of a line has no inner face behind it, so `legalize_edge` flips nothing there (`Still` in line), and is left out.
#![tactic(auto)]

ghost use Rattle.std.specs.Prelude.{List, ◌≡◌, ℕ};
ghost use Rattle.apply.specs.ApplyRows.{walking_of};
ghost use Rattle.corner.specs.CornerRows.{extended_of};
ghost use Rattle.dcel.specs.Rows.{links_of, position_of};
ghost use Rattle.skipped.specs.Insert.{outside_turn, outside_walk, insert_outside};
ghost use Rattle.line_fan.specs.FanRows.{TurnReady, FanReady, OffLineReady};

use apply::Walked;
use corner::Extension;
use math::Point;
use mesh::Counts;
use ring::Side;

// One turn of a loop: the face between the current edge and the one beside it. The new edge is the current one.
fn fan_turn(halves: &mut [u32], faces: &mut [u32], side: Side, walked: Walked) -> Walked
    requires { TurnReady side halves.old faces.old walked }
    ensures { (room : ℕ) (p : ℕ → Point) (o : List ℕ)
        → walking_of o halves.new faces.new result
        ≡ outside_turn side room p (walking_of o halves.old faces.old walked) }
{
    let added = walked.added;
    let e = walked.edge;
    let d = apply_rows::beside(halves, e, side);
    let at = apply_rows::face_edge(side, e, d);
    let new = dcel_operations::create_single_face_between_edge_and_next(
        halves,
        faces,
        added.counts,
        at,
    );
    Walked {
        added: Extension {
            counts: new.counts,
            faces: added.faces + 1,
            full: false,
            ..added
        },
        edge: new.edge,
    }
}

// One of the two loops, until an edge is not seen: the line ends there. Each turn makes one edge.
fn fan_walk(
    positions: &[i32],
    halves: &mut [u32],
    faces: &mut [u32],
    side: Side,
    walked: Walked,
    point: Point,
) -> Walked
    requires { FanReady side positions.now halves.old faces.old walked point }
    ensures { (room : ℕ) (o : List ℕ)
        → walking_of o halves.new faces.new result
        ≡ outside_walk side room (position_of positions.now) point
        (walking_of o halves.old faces.old walked) }
{
    let mut now = walked;
    while insert_outside::sees_beside(positions, halves, side, now, point) {
        now = fan_turn(halves, faces, side, now);
    }
    now
}

// All of it, at a half-edge e that has the point strictly left. The new vertex has its position already.
pub fn insert_off_line(
    positions: &[i32],
    outs: &mut [u32],
    halves: &mut [u32],
    faces: &mut [u32],
    counts: Counts,
    point: Point,
    e: u32,
) -> Extension
    requires { OffLineReady counts positions.now outs.old halves.old faces.old point e }
    ensures { (room : ℕ)
        → extended_of outs.new halves.new faces.new result
        ≡ insert_outside room (position_of positions.now) counts
        (links_of outs.old halves.old faces.old) point e }
{
    let to = 2 * counts.edges + 2 + 1;
    let from = 2 * counts.edges + 1;
    let after = dcel_operations::create_new_face_adjacent_to_edge(outs, halves, faces, counts, e);
    let first = Extension {
        counts: after,
        faces: 1,
        flips: 0,
        full: false,
    };
    let left = fan_walk(
        positions,
        halves,
        faces,
        Side::Left,
        Walked {
            added: first,
            edge: to,
        },
        point,
    );
    let right = fan_walk(
        positions,
        halves,
        faces,
        Side::Right,
        Walked {
            added: left.added,
            edge: from,
        },
        point,
    );
    right.added
}
