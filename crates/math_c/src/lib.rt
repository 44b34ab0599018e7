// The circle test of `math` for its benchmark, on plain numbers. The side test is exported by `fithmoul`.
#![tactic(auto)]

ghost use Rattle.std.specs.Prelude.{◌≡◌};
ghost use Rattle.math_c.specs.Answer.{at, circle_answer};

use math::Point;

// 1 strictly inside the circle of the first three, which turn left, 0 otherwise, 2 where a coordinate is out of range.
#[unsafe(no_mangle)]
pub extern "C" fn math_contained_in_circumference(
    v1x: i32,
    v1y: i32,
    v2x: i32,
    v2y: i32,
    v3x: i32,
    v3y: i32,
    px: i32,
    py: i32,
) -> u8
    ensures { result ≡ circle_answer (at v1x v1y) (at v2x v2y) (at v3x v3y) (at px py) }
{
    let v1 = Point { x: v1x, y: v1y };
    let v2 = Point { x: v2x, y: v2y };
    let v3 = Point { x: v3x, y: v3y };
    let p = Point { x: px, y: py };
    circle(v1, v2, v3, p)
}

pub fn circle(v1: Point, v2: Point, v3: Point, p: Point) -> u8
    ensures { result ≡ circle_answer v1 v2 v3 p }
{
    let valid = math::validate_vertex(v1)
        && math::validate_vertex(v2)
        && math::validate_vertex(v3)
        && math::validate_vertex(p);
    if !valid {
        return 2;
    }
    u8::from(math::contained_in_circumference(v1, v2, v3, p))
}
