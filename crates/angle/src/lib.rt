// Pseudo-angles (bulk_load.rs, `pseudo_angle`): the angle of a vertex about a centre, a whole number of 2 ^ -53 from
// 0.0 to 1.0, and that whole number, which everything above goes by.
#![tactic(auto)]

ghost use Rattle.std.specs.Prelude.{◌≡◌, ◌≤◌, ◌^◌, Bool, not, ℤ, T, ltb, leb, eqb};
ghost use Rattle.std.specs.Float.Ieee.{of_int, of_bits, to_bits};
ghost use Rattle.std.specs.Float.{binary64};
ghost use Rattle.angle.specs.Angle.{pseudo_angle, angle_about, bounded, valid_center, at_center, Apart, IsAngle, turns, valid_angle};
ghost use Rattle.angle.specs.Answer.{vertex_angle, CarriesAngle};

#[derive(Clone, Copy, PartialEq)]
pub struct Point2 {
    pub x: f64,
    pub y: f64,
}

pub fn pseudo_angle(a: Point2, center: Point2) -> f64
    requires { Apart a.x a.y center.x center.y }
    ensures is { result ≡ pseudo_angle a.x a.y center.x center.y }
    ensures angle { IsAngle result }
{
    let x = a.x - center.x;
    let y = a.y - center.y;
    let p = x / (x.abs() + y.abs());
    let q = if y > 0.0 { 3.0 - p } else { 1.0 + p };
    1.0 - q * 0.25
}

// The position of a vertex as floats, which is exact.
pub fn to_f64(x: i32, y: i32) -> Point2
    ensures { (result.x ≡ of_int binary64 x) × (result.y ≡ of_int binary64 y) }
{
    Point2 {
        x: f64::from(x),
        y: f64::from(y),
    }
}

// Whether a coordinate of the centre is finite and in range, by two comparisons.
pub fn is_in_range(x: f64) -> bool
    ensures { result ≡ bounded 24 x }
{
    -16777216.0 <= x && x <= 16777216.0
}

// Whether the centre is finite and in range: the first two parts of refusal 6.
#[tactic(auto, unfolding(crate::specs::Angle::valid_center))]
pub fn validate_center(center: Point2) -> bool
    ensures { result ≡ valid_center center.x center.y }
{
    is_in_range(center.x) && is_in_range(center.y)
}

// Whether a vertex equals the centre: the third part, and fate 5.
pub fn is_at_center(x: i32, y: i32, center: Point2) -> bool
    ensures { result ≡ at_center x y center.x center.y }
{
    to_f64(x, y) == center
}

// The angle of a vertex that is not at the centre.
pub fn angle_about(x: i32, y: i32, center: Point2) -> f64
    requires { T (valid_center center.x center.y) × T (not (at_center x y center.x center.y)) }
    ensures is { result ≡ angle_about x y center.x center.y }
    ensures angle { IsAngle result }
{
    pseudo_angle(to_f64(x, y), center)
}

// The angle of any vertex: none for one at the centre.
pub fn vertex_angle(x: i32, y: i32, center: Point2) -> Option<f64>
    requires { T (valid_center center.x center.y) }
    ensures is { result ≡ vertex_angle x y center.x center.y }
    ensures angle { CarriesAngle result }
{
    if is_at_center(x, y, center) {
        return None;
    }
    Some(angle_about(x, y, center))
}

// Whether a given angle is one to locate: what refusal 8 lets pass.
pub fn validate_angle(a: f64) -> bool
    ensures { result ≡ valid_angle a }
{
    0.0 <= a && a <= 1.0
}

// How many times 2 ^ -53 a valid angle is, rounded down: from its exponent and mantissa.
pub fn turns_of(a: f64) -> u64
    requires { T (valid_angle a) }
    ensures is { result ≡ turns a }
    ensures small { result ≤ 2 ^ 53 }
{
    let bits = f64::to_bits(a);
    let exponent = (bits >> 52) & 0x7ff;
    // Below 2 ^ -53; 0.0, -0.0 and subnormal numbers are here too.
    if exponent < 970 {
        return 0;
    }
    let mantissa = (bits & 0xf_ffff_ffff_ffff) + 0x10_0000_0000_0000;
    (mantissa * 2) >> (1023 - exponent)
}

// Comparisons of two angles are those of their whole numbers.
pub fn less(a: f64, b: f64) -> bool
    requires { IsAngle a × IsAngle b }
    ensures { result ≡ ltb (turns a) (turns b) }
{
    a < b
}

pub fn at_most(a: f64, b: f64) -> bool
    requires { IsAngle a × IsAngle b }
    ensures { result ≡ leb (turns a) (turns b) }
{
    a <= b
}

pub fn equal(a: f64, b: f64) -> bool
    requires { IsAngle a × IsAngle b }
    ensures { result ≡ eqb (turns a) (turns b) }
{
    a == b
}

// An angle as the bits that a row keeps, and back.
pub fn to_bits(a: f64) -> u64
    requires { IsAngle a }
    ensures is { result ≡ to_bits binary64 a }
    ensures back { of_bits binary64 result ≡ a }
{
    f64::to_bits(a)
}

pub fn from_bits(bits: u64) -> f64
    requires { IsAngle (of_bits binary64 bits) }
    ensures is { result ≡ of_bits binary64 bits }
    ensures angle { IsAngle result }
{
    f64::from_bits(bits)
}
