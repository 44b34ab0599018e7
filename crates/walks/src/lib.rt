// The two walks of a step (bulk_load.rs, `single_bulk_insertion_step`, the tests of its two loops): which boundary edges a point covers
// before the located edge and after it. The point's position and angle are handed in, and what a walk finds is stated for any of either; a
// boundary vertex that a walk comes to is read once, and its angle is worked out once. Nothing is written. What is found is `WalkedTo` of
// specs/Walks.antt.
#![tactic(auto)]

ghost use Rattle.std.specs.Prelude.{◌≡◌};
ghost use Rattle.dcel.specs.Rows.{There};
ghost use Rattle.math.specs.Determinant.{InRange};
ghost use Rattle.walks.specs.Walks.{origin_position, OriginIn, ToRead, ReadAt, area_on, behind_on, ToCover, cover_test};
ghost use Rattle.walks.specs.Walks.{ToExtend, Extended, walk_step, far_half, ToWalk, WalkedTo};

use angle::Point2;
use math::Point;
use ring::Side;

// A boundary vertex as it was read: its position, and its angle about the centre.
#[derive(Clone, Copy)]
pub struct BoundaryVertex {
    pub position: Point,
    pub angle: f64,
}

// How many edges a walk covers, how many nodes of the ring stand for them, and the boundary vertex where it ends.
#[derive(Clone, Copy)]
pub struct WalkEnd {
    pub count: u32,
    pub nodes: u32,
    pub vertex: BoundaryVertex,
}

// The position at the origin of a half-edge.
pub fn origin_position(positions: &[i32], halves: &[u32], e: u32) -> Point
    requires { OriginIn positions.now halves.now e }
    ensures { result ≡ origin_position positions.now halves.now e }
{
    dcel::position(positions, dcel::origin(halves, e))
}

// The boundary vertex at a position.
fn boundary_vertex(position: Point, center: Point2) -> BoundaryVertex
    requires { ToRead position center.x center.y }
    ensures { ReadAt position center.x center.y result }
{
    BoundaryVertex {
        position,
        angle: angle::angle_about(position.x, position.y, center),
    }
}

// The side query of the point and the edge between `far` and `near`, which goes to `near` on the left and from it on the right.
fn side_query(side: Side, far: Point, near: Point, point: Point) -> i64
    requires { InRange far × InRange near × InRange point }
    ensures { result ≡ area_on side far near point }
{
    match side {
        Side::Left => math::side_query(far, near, point),
        Side::Right => math::side_query(near, far, point),
    }
}

// Whether `far` is behind the edge between the point and `near`, which goes the same way.
fn is_behind_edge(side: Side, far: Point, near: Point, point: Point) -> bool
    requires { InRange far × InRange near × InRange point }
    ensures { result ≡ behind_on side far near point }
{
    match side {
        Side::Left => math::is_behind_edge(point, near, far),
        Side::Right => math::is_behind_edge(near, point, far),
    }
}

// The test of both loops: does a point with this angle cover the edge between `far` and `near`?
fn covers(side: Side, far: Point, near: BoundaryVertex, point: Point, angle: f64) -> bool
    requires { ToCover far near point angle }
    ensures { result ≡ cover_test side far near point angle }
{
    if side_query(side, far, near.position, point) <= 0 {
        return false;
    }
    if !is_behind_edge(side, far, near.position, point) {
        return true;
    }
    // Prevents inserting the same angle twice into the hull.
    angle::equal(angle, near.angle)
}

// One edge more is covered, from where the walk stands to `far`. An edge whose ends have different angles has a node.
fn extend(end: WalkEnd, far: Point, center: Point2) -> WalkEnd
    requires { ToExtend end far center.x center.y }
    ensures { Extended end far center.x center.y result }
{
    let vertex = boundary_vertex(far, center);
    let has_node = !angle::equal(end.vertex.angle, vertex.angle);
    WalkEnd {
        count: end.count + 1,
        nodes: end.nodes + u32::from(has_node),
        vertex,
    }
}

// The boundary edge after d on a walk.
fn step(side: Side, halves: &[u32], d: u32) -> u32
    requires { There halves.now d }
    ensures { result ≡ walk_step side halves.now d }
{
    match side {
        Side::Left => dcel::prev(halves, d),
        Side::Right => dcel::next(halves, d),
    }
}

// The position at the far end of an edge of a walk.
fn far_position(side: Side, positions: &[i32], halves: &[u32], d: u32) -> Point
    requires { OriginIn positions.now halves.now (far_half side d) }
    ensures { result ≡ origin_position positions.now halves.now (far_half side d) }
{
    match side {
        Side::Left => origin_position(positions, halves, d),
        Side::Right => origin_position(positions, halves, dcel::rev(d)),
    }
}

// A walk from e, on the left against next, from e's origin on, and on the right along next, from its end on: the edges on that side that
// the point covers.
pub fn walk(
    side: Side,
    positions: &[i32],
    halves: &[u32],
    e: u32,
    start: BoundaryVertex,
    point: Point,
    angle: f64,
    center: Point2,
) -> WalkEnd
    requires { ToWalk side positions.now halves.now center.x center.y point angle e start }
    ensures { WalkedTo side positions.now halves.now center.x center.y point angle e result }
{
    let mut end = WalkEnd {
        count: 0,
        nodes: 0,
        vertex: start,
    };
    let mut d = step(side, halves, e);
    let mut far = far_position(side, positions, halves, d);
    while covers(side, far, end.vertex, point, angle) {
        end = extend(end, far, center);
        d = step(side, halves, d);
        far = far_position(side, positions, halves, d);
    }
    end
}
