// Whether an edge breaks the circle rule. `should_flip` is the test of the closing pass and of legalizing.
#![tactic(auto)]

ghost use Rattle.std.specs.Prelude.{List, ◌≡◌, ℕ};
ghost use Rattle.math.specs.Determinant.{contained_in_circumference};
ghost use Rattle.mesh.specs.Circle.{breaks_circle};
ghost use Rattle.dcel.specs.Rows.{links_of, position_of, Placed};
ghost use Rattle.circle_test.specs.GoodRows.{CircleReady};

use dcel::handles::Far;

// Whether vertex d is strictly inside the circle of the vertices a, b and c, which turn left.
pub fn is_inside(positions: &[i32], a: u32, b: u32, c: u32, d: u32) -> bool
    requires { Placed positions.now a × Placed positions.now b × Placed positions.now c × Placed positions.now d }
    ensures { result ≡ contained_in_circumference
        (position_of positions.now a) (position_of positions.now b)
        (position_of positions.now c) (position_of positions.now d) }
{
    let v1 = dcel::position(positions, a);
    let v2 = dcel::position(positions, b);
    let v3 = dcel::position(positions, c);
    let p = dcel::position(positions, d);
    math::contained_in_circumference(v1, v2, v3, p)
}

// Whether both sides of edge u have a far vertex, and that of 2u + 1 is strictly inside the circle of the triangle of 2u.
pub fn should_flip(positions: &[i32], halves: &[u32], u: u32) -> bool
    requires { CircleReady positions.now halves.now u }
    ensures { (o a : List ℕ) → result ≡ breaks_circle (links_of o halves.now a) (position_of positions.now) u }
{
    let e = 2 * u;
    let t = e + 1;
    let Far::Vertex(c) = dcel::far(halves, e) else {
        return false;
    };
    let Far::Vertex(d) = dcel::far(halves, t) else {
        return false;
    };
    let a = dcel::origin(halves, e);
    let b = dcel::origin(halves, t);
    is_inside(positions, a, b, c, d)
}
