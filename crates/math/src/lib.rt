// Exact tests on points whose coordinates are within ±16,777,216, in 64-bit whole numbers: math.rs and
// point.rs of spade 2.15.1.
// What each function answers is an equation with a definition of `specs/Determinant.antt`.
#![tactic(auto)]

ghost use Rattle.std.specs.Prelude.{◌≡◌, not, ◌&&◌};
ghost use Rattle.math.specs.Determinant.{InRange, orient2d, contained_in_circumference, is_ordered_ccw, projection_of, is_before, is_behind, is_behind_edge, is_valid_coordinate, is_valid_vertex, length2, is_position};
ghost use Rattle.math.specs.Vector.{Short, difference, dot_of, cross_of};

mod wide;

// A point with whole coordinates.
#[derive(Clone, Copy, PartialEq, Eq)]
pub struct Point {
    pub x: i32,
    pub y: i32,
}

// A difference of two points.
#[derive(Clone, Copy)]
pub struct Vector {
    pub x: i64,
    pub y: i64,
}

// Where the projection of a point on the line from p1 to p2 falls: at `factor` / `length_2` of the way. `length_2` is the squared length.
#[derive(Clone, Copy)]
pub struct PointProjection {
    pub factor: i64,
    pub length_2: i64,
}

impl Point {
    pub fn sub(self, other: Point) -> Vector
        requires { InRange self × InRange other }
        ensures { result ≡ difference self other }
    {
        Vector {
            x: self.x as i64 - other.x as i64,
            y: self.y as i64 - other.y as i64,
        }
    }

    // The squared distance.
    pub fn distance_2(self, other: Point) -> i64
        requires { InRange self × InRange other }
        ensures { result ≡ length2 self other }
    {
        let dir = other.sub(self);
        dir.dot(dir)
    }
}

impl Vector {
    pub fn dot(self, other: Vector) -> i64
        requires { Short self × Short other }
        ensures { result ≡ dot_of self other }
    {
        self.x * other.x + self.y * other.y
    }

    pub fn cross(self, other: Vector) -> i64
        requires { Short self × Short other }
        ensures { result ≡ cross_of self other }
    {
        self.x * other.y - self.y * other.x
    }
}

impl PointProjection {
    pub fn is_before_edge(self) -> bool
        ensures { result ≡ is_before self }
    {
        self.factor < 0
    }

    pub fn is_behind_edge(self) -> bool
        ensures { result ≡ is_behind self }
    {
        self.factor > self.length_2
    }

    pub fn is_on_edge(self) -> bool
        ensures { result ≡ (not (is_before self) && not (is_behind self)) }
    {
        !self.is_before_edge() && !self.is_behind_edge()
    }
}

// Twice the signed area of the triangle p1 p2 q: positive where q lies left of the line from p1 to p2, negative where it
// lies right of it, 0 on the line. In the Rust this is the side alone, a `LineSideInfo`.
pub fn side_query(p1: Point, p2: Point, q: Point) -> i64
    requires { InRange p1 × InRange p2 × InRange q }
    ensures { result ≡ orient2d p1 p2 q }
{
    let u = p2.sub(p1);
    let v = q.sub(p1);
    u.cross(v)
}

// Whether p1 p2 q turns left or not at all.
pub fn is_ordered_ccw(p1: Point, p2: Point, q: Point) -> bool
    requires { InRange p1 × InRange p2 × InRange q }
    ensures { result ≡ is_ordered_ccw p1 p2 q }
{
    side_query(p1, p2, q) >= 0
}

// Whether p lies strictly inside the circle of v1, v2 and v3, which turn left. The determinant by two products, where Shewchuk's has three.
pub fn contained_in_circumference(v1: Point, v2: Point, v3: Point, p: Point) -> bool
    requires { InRange v1 × InRange v2 × InRange v3 × InRange p }
    ensures { result ≡ contained_in_circumference v1 v2 v3 p }
{
    let u = v1.sub(v3);
    let v = v2.sub(v3);
    let s = v1.sub(p);
    let t = v2.sub(p);
    wide::sum_sign(v.cross(u), s.dot(t), u.dot(v), s.cross(t)) > 0
}

pub fn project_point(p1: Point, p2: Point, q: Point) -> PointProjection
    requires { InRange p1 × InRange p2 × InRange q }
    ensures { result ≡ projection_of p1 p2 q }
{
    let dir = p2.sub(p1);
    let to = q.sub(p1);
    PointProjection {
        factor: to.dot(dir),
        length_2: dir.dot(dir),
    }
}

// Whether the projection of q on the line from e1 to e2 lies behind e2. The Rust adds f64::EPSILON to the length,
// against rounding: the answer is the same (`specs/Projection.antt`).
pub fn is_behind_edge(e1: Point, e2: Point, q: Point) -> bool
    requires { InRange e1 × InRange e2 × InRange q }
    ensures { result ≡ is_behind_edge e1 e2 q }
{
    project_point(e1, e2, q).is_behind_edge()
}

pub fn is_position(a: Point, b: Point) -> bool
    ensures { result ≡ is_position a b }
{
    a == b
}

// Whether a coordinate is within ±16,777,216.
pub fn validate_coordinate(value: i32) -> bool
    ensures { result ≡ is_valid_coordinate value }
{
    (-16777216..=16777216).contains(&value)
}

// Whether both coordinates are.
pub fn validate_vertex(p: Point) -> bool
    ensures { result ≡ is_valid_vertex p }
{
    validate_coordinate(p.x) && validate_coordinate(p.y)
}
