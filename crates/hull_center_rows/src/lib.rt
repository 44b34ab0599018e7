// Whether the sweep of a bare list of points may start, asked of a mesh that the caller lends, and the centre that it then
// turns about: `try_get_hull_center` and `Hull::from_triangulation` of bulk_load.rs. Nothing is written. What is answered
// is `is_ready` and `hull_center` of crate hull_center.
// A function that is not lent a row says what it says whatever that row holds: o are the out edges and s the faces.
#![tactic(auto)]

ghost use Rattle.std.specs.Prelude.{List, ◌≡◌, ℕ, ◌≤◌, pos, nat_abs, ◌+ℤ◌, ◌*ℤ◌};
ghost use Rattle.std.specs.Int.Signed.{lt_z};
ghost use Rattle.dcel.specs.Rows.{links_of, position_of};
ghost use Rattle.hull_center.specs.HullCenter.{last_three, SmallSum, center_coordinate, center_of, hull_center};
ghost use Rattle.hull_center.specs.HullCenter.{is_center_left, holds_center_at, holds_center, accepts_center, is_ready};
ghost use Rattle.math.specs.Determinant.{InRange};
ghost use Rattle.math.specs.Vector.{Short};
ghost use Rattle.hull_center_rows.specs.CenterRows.{LastThreeIn, MeshIn, TriangleIn, CornersIn, CornersOf, HoldReady, CenterReady};
ghost use Rattle.hull_center_rows.specs.Side.{WideSum, less_three, cross_sum};

use angle::Point2;
use hull_center::PositionSum;
use math::{Point, Vector};
use mesh::Counts;

// The corners of a triangle.
#[derive(Clone, Copy)]
pub struct Corners {
    pub p: Point,
    pub q: Point,
    pub r: Point,
}

fn add_three(a: i32, b: i32, c: i32) -> i64
    ensures { result ≡ a +ℤ b +ℤ c }
{
    i64::from(a) + i64::from(b) + i64::from(c)
}

// The positions of the three vertices that were added last, added up.
fn last_three(positions: &[i32], counts: Counts) -> PositionSum
    requires { LastThreeIn counts positions.now }
    ensures { result ≡ last_three counts (position_of positions.now) }
{
    let n = counts.vertices;
    let a = dcel::position(positions, n - 3);
    let b = dcel::position(positions, n - 2);
    let c = dcel::position(positions, n - 1);
    PositionSum {
        x: add_three(a.x, b.x, c.x),
        y: add_three(a.y, b.y, c.y),
    }
}

// A coordinate of the centre: 0.3333333432674408 is 1f32 / 3f32.
fn center_coordinate(sum: i64) -> f64
    requires { nat_abs sum ≤ 50331648 }
    ensures { result ≡ center_coordinate sum }
{
    sum as f64 * 0.3333333432674408
}

fn center_of(sum: PositionSum) -> Point2
    requires { SmallSum sum }
    ensures { result ≡ center_of sum }
{
    Point2 {
        x: center_coordinate(sum.x),
        y: center_coordinate(sum.y),
    }
}

// The centre about which the sweep turns: where `is_ready` says that it may start.
pub fn center(positions: &[i32], counts: Counts) -> Point2
    requires { LastThreeIn counts positions.now }
    ensures { result ≡ hull_center counts (position_of positions.now) }
{
    center_of(last_three(positions, counts))
}

// Three times the centroid of the three vertices, seen from a.
fn less_three(sum: PositionSum, a: Point) -> PositionSum
    requires { SmallSum sum × InRange a }
    ensures { result ≡ less_three sum a }
{
    PositionSum {
        x: sum.x - 3 * i64::from(a.x),
        y: sum.y - 3 * i64::from(a.y),
    }
}

fn cross(d: Vector, s: PositionSum) -> i64
    requires { Short d × WideSum s }
    ensures { result ≡ cross_sum d s }
{
    d.x * s.y - d.y * s.x
}

// Whether high * 2^25 + low is positive. A low of at most 3 * 2^50 in size weighs less than a high above 2^27; below that
// the sum fits.
fn is_positive(high: i64, low: i64) -> bool
    requires { nat_abs low ≤ 3377699720527872 }
    ensures { result ≡ lt_z (pos 0) (high *ℤ pos 33554432 +ℤ low) }
{
    if high > 134217728 {
        return true;
    }
    if high < -134217728 {
        return false;
    }
    high * 33554432 + low > 0
}

// Whether the centre is strictly left of the line from a to b. Three times the centre is the sum of the positions and
// 2^-25 of that sum, so that its doubled area with a and b has the sign of high * 2^25 + low.
fn is_center_left(a: Point, b: Point, sum: PositionSum) -> bool
    requires { InRange a × InRange b × SmallSum sum }
    ensures { result ≡ is_center_left a b sum }
{
    let d = b.sub(a);
    let high = cross(d, less_three(sum, a));
    let low = cross(d, sum);
    is_positive(high, low)
}

fn corners_of(positions: &[i32], halves: &[u32], a: u32) -> Corners
    requires { CornersIn positions.now halves.now a }
    ensures { CornersOf positions.now halves.now a result }
{
    let b = dcel::next(halves, a);
    let c = dcel::next(halves, b);
    Corners {
        p: dcel::position(positions, dcel::origin(halves, a)),
        q: dcel::position(positions, dcel::origin(halves, b)),
        r: dcel::position(positions, dcel::origin(halves, c)),
    }
}

// Whether the triangle of a holds the centre, its edges and corners not counted.
fn holds_center_at(positions: &[i32], halves: &[u32], a: u32, sum: PositionSum) -> bool
    requires { TriangleIn positions.now halves.now a × SmallSum sum }
    ensures { (o s : List ℕ)
        → result ≡ holds_center_at (links_of o halves.now s) (position_of positions.now) sum a }
{
    let k = corners_of(positions, halves, a);
    is_center_left(k.p, k.q, sum) && is_center_left(k.q, k.r, sum) && is_center_left(k.r, k.p, sum)
}

// Whether an inner face holds the centre.
fn holds_center(
    positions: &[i32],
    halves: &[u32],
    faces: &[u32],
    counts: Counts,
    sum: PositionSum,
) -> bool
    requires { HoldReady counts positions.now halves.now faces.now sum }
    ensures { (o : List ℕ)
        → result ≡ holds_center counts (links_of o halves.now faces.now) (position_of positions.now) }
{
    for f in 1..counts.faces {
        let a = dcel::adjacent(faces, f);
        if holds_center_at(positions, halves, a, sum) {
            return true;
        }
    }
    false
}

// Whether refusals 6 and 7 let the centre pass.
fn has_strict_ring(
    positions: &[i32],
    halves: &[u32],
    faces: &[u32],
    counts: Counts,
    center: Point2,
) -> bool
    requires { MeshIn counts positions.now halves.now faces.now }
    ensures { (o : List ℕ)
        → result ≡ accepts_center counts (links_of o halves.now faces.now) (position_of positions.now)
        center.x center.y }
{
    if !angle::validate_center(center) {
        return false;
    }
    let start = dcel::adjacent(faces, 0);
    let size = hull::convex_hull_size(counts);
    !hull::meets_center(positions, halves, start, size, center)
        && hull::is_strict(positions, halves, start, size, center)
}

// Whether the sweep may start. The ring comes first, since that looks at the boundary alone.
pub fn is_ready(positions: &[i32], halves: &[u32], faces: &[u32], counts: Counts) -> bool
    requires { CenterReady counts positions.now halves.now faces.now }
    ensures { (o : List ℕ)
        → result ≡ is_ready counts (links_of o halves.now faces.now) (position_of positions.now) }
{
    if counts.faces < 2 {
        return false;
    }
    let sum = last_three(positions, counts);
    let center = center_of(sum);
    has_strict_ring(positions, halves, faces, counts, center)
        && holds_center(positions, halves, faces, counts, sum)
}
