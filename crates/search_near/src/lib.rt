// Point location from an edge near by: a walk over the triangles towards the point, whose answer is taken where it ends
// strictly inside one; elsewhere the search from vertex 0 decides. On a mesh to walk on the answer is `locate_point` of crate
// location in either case, by `locate-inside` of crate nearby. And the test of such a mesh. Nothing is written.
// A row that a function is lent and does not read stands for the contract alone.
#![tactic(auto)]

ghost use Rattle.std.specs.Prelude.{◌≡◌, ◌<◌, IfSome};
ghost use Rattle.circle_test.specs.GoodRows.{GoodRows};
ghost use Rattle.dcel.specs.Rows.{links_of, position_of};
ghost use Rattle.location.specs.Place.{InFace};
ghost use Rattle.location.specs.Scan.{locate_point};
ghost use Rattle.math.specs.Vector.{Short};
ghost use Rattle.nearby.specs.Test.{is_right_turn, is_walkable};
ghost use Rattle.outline.specs.Outline.{upper};
ghost use Rattle.search_near.specs.NearRows.{StartReady, FacingReady, TurnedIs, NearReady, DirectionReady, DirectionIs, is_positive_of, fall_bit};

use location::PositionInTriangulation;
use math::{Point, Vector};
use mesh::Counts;

// The turns that the walk is given, at most.
pub const WALK_TURNS: u32 = 1024;

// A half-edge with the positions of its ends; `left` where the point is strictly left of it.
#[derive(Clone, Copy)]
pub struct Facing {
    pub e: u32,
    pub from: Point,
    pub to: Point,
    pub left: bool,
}

// What a turn of the walk comes to: the face that has the point strictly inside, the half-edge from which to go on, or neither.
#[derive(Clone, Copy)]
pub enum Turned {
    Inside(u32),
    Onward(Facing),
    Nowhere,
}

// The first half of edge u, or the second where the point is strictly right of the first.
fn first_edge(
    positions: &[i32],
    outs: &[u32],
    halves: &[u32],
    faces: &[u32],
    counts: Counts,
    u: u32,
    point: Point,
) -> Facing
    requires { StartReady counts positions.now outs.now halves.now faces.now point u }
    ensures { FacingReady counts positions.now outs.now halves.now faces.now point result }
{
    let e = 2 * u;
    let v = dcel::origin(halves, e);
    let w = dcel::to(halves, e);
    let from = dcel::position(positions, v);
    let to = dcel::position(positions, w);
    let area = math::side_query(from, to, point);
    if area < 0 {
        return Facing {
            e: dcel::rev(e),
            from: to,
            to: from,
            left: true,
        };
    }
    Facing {
        e,
        from,
        to,
        left: 0 < area,
    }
}

// On over the edge of the triangle that the point is strictly right of; where there is none the triangle holds the point.
fn walk_turn(
    positions: &[i32],
    outs: &[u32],
    halves: &[u32],
    faces: &[u32],
    counts: Counts,
    at: Facing,
    point: Point,
) -> Turned
    requires { FacingReady counts positions.now outs.now halves.now faces.now point at }
    ensures { TurnedIs counts positions.now outs.now halves.now faces.now point result }
{
    let half = dcel::half_edge(halves, at.e);
    if half.face == 0 {
        return Turned::Nowhere;
    }
    let v = dcel::origin(halves, half.prev);
    let far = dcel::position(positions, v);
    let before = math::side_query(far, at.from, point);
    if before < 0 {
        return Turned::Onward(Facing {
            e: dcel::rev(half.prev),
            from: at.from,
            to: far,
            left: true,
        });
    }
    let after = math::side_query(at.to, far, point);
    if after < 0 {
        return Turned::Onward(Facing {
            e: dcel::rev(half.next),
            from: far,
            to: at.to,
            left: true,
        });
    }
    if at.left && 0 < before && 0 < after {
        return Turned::Inside(half.face);
    }
    Turned::Nowhere
}

// The face where the walk ends with the point strictly inside; none where it ends otherwise.
fn walk(
    positions: &[i32],
    outs: &[u32],
    halves: &[u32],
    faces: &[u32],
    counts: Counts,
    start: Facing,
    point: Point,
) -> Option<u32>
    requires { FacingReady counts positions.now outs.now halves.now faces.now point start }
    ensures { IfSome result (InFace counts (links_of outs.now halves.now faces.now) (position_of positions.now) point) }
{
    let mut at = start;
    for _ in 0..WALK_TURNS {
        match walk_turn(positions, outs, halves, faces, counts, at, point) {
            Turned::Inside(f) => {
                return Some(f);
            }
            Turned::Onward(next) => {
                at = next;
            }
            Turned::Nowhere => {
                return None;
            }
        }
    }
    None
}

// Where the point lies: by the walk from edge u, where the mesh is known to be one to walk on and the walk ends strictly
// inside a face.
pub fn locate_near(
    positions: &[i32],
    outs: &[u32],
    halves: &[u32],
    faces: &[u32],
    counts: Counts,
    point: Point,
    known: bool,
    u: u32,
) -> PositionInTriangulation
    requires { NearReady counts positions.now outs.now halves.now faces.now point known u }
    ensures { result ≡ locate_point counts
        (links_of outs.now halves.now faces.now) (position_of positions.now) point }
{
    if known {
        let start = first_edge(positions, outs, halves, faces, counts, u, point);
        if let Some(f) = walk(positions, outs, halves, faces, counts, start, point) {
            return PositionInTriangulation::OnFace(f);
        }
    }
    search::locate_point(positions, outs, halves, faces, counts, point)
}

// ---- the test of a mesh to walk on

// The direction of half-edge e.
fn direction(positions: &[i32], halves: &[u32], e: u32) -> Vector
    requires { DirectionReady positions.now halves.now e }
    ensures { DirectionIs positions.now halves.now e result }
{
    let u = dcel::origin(halves, e);
    let w = dcel::to(halves, e);
    let from = dcel::position(positions, u);
    let to = dcel::position(positions, w);
    to.sub(from)
}

// Whether a number is positive, or 0 with a second that is.
fn is_positive(a: i64, b: i64) -> bool
    ensures { result ≡ is_positive_of a b }
{
    0 < a || (0 <= a && 0 < b)
}

// Whether a direction is of the upper half-plane.
fn is_upper(v: Vector) -> bool
    ensures { result ≡ upper v }
{
    is_positive(v.y, v.x)
}

// Whether direction v follows direction u with a right turn, or straight on.
fn is_right_turn(u: Vector, v: Vector) -> bool
    requires { Short u × Short v }
    ensures { result ≡ is_right_turn u v }
{
    is_positive(v.cross(u), u.dot(v))
}

// 1 where a direction of the upper half-plane is followed by one of the lower.
fn fall(u: Vector, v: Vector) -> u32
    ensures { result ≡ fall_bit u v }
{
    u32::from(is_upper(u) && !is_upper(v))
}

// Whether the mesh is one to walk on: once along the boundary.
pub fn is_walkable(
    positions: &[i32],
    outs: &[u32],
    halves: &[u32],
    faces: &[u32],
    counts: Counts,
) -> bool
    requires { GoodRows counts positions.now outs.now halves.now faces.now }
    ensures { result ≡ is_walkable counts
        (links_of outs.now halves.now faces.now) (position_of positions.now) }
{
    let size = hull::convex_hull_size(counts);
    let mut e = dcel::adjacent(faces, 0);
    let mut from = direction(positions, halves, e);
    let mut circles = 0;
    for _ in 0..size {
        e = dcel::next(halves, e);
        let to = direction(positions, halves, e);
        if !is_right_turn(from, to) {
            return false;
        }
        circles += fall(from, to);
        from = to;
    }
    circles == 1
}
