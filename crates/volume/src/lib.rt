// The call `volume` (02, Change 1): six times the signed volume between a mesh with heights and a level, exactly, and that
// volume in whole cubic metres. It reads the mesh's rows and the heights, and writes nothing.
#![tactic(auto)]

ghost use Rattle.std.specs.Prelude.{◌≡◌, List, ℕ, ◌-◌, pos, ◌+ℤ◌, ◌-ℤ◌, ◌*ℤ◌};
ghost use Rattle.dcel.specs.MeshRows.{mesh_rows};
ghost use Rattle.dcel.specs.Rows.{links_of, position_of};
ghost use Rattle.heights.specs.Heights.{height_of, surface_rows};
ghost use Rattle.int128.specs.Int128.{int128_of};
ghost use Rattle.math.specs.Determinant.{orient2d};
ghost use Rattle.mesh.specs.Area.{at_corners};
ghost use Rattle.volume.specs.DigitSums.{plus_triangle, whole_of, SmallProduct, SmallTriangle, SmallSums};
ghost use Rattle.volume.specs.Measurable.{CornerHeights, Triangle, Measurable, face_sums};
ghost use Rattle.volume.specs.Volume.{above_level, six_volumes_of, volumes_of, volume_of};

use int128::Int128;
use mesh::Counts;
use mesh_check::Refusal;

// Six times the volume in cubic millimetres, and the volume in cubic metres.
#[derive(Clone, Copy)]
pub struct Volumes {
    pub six_volumes: Int128,
    pub cubic_metres: i64,
}

// Over triangles: the heights above the level times each of the three digits, base 2 ^ 17, of the doubled area. No sum of
// two million such products passes 64 bits.
#[derive(Clone, Copy)]
pub struct DigitSums {
    pub low: i64,
    pub middle: i64,
    pub high: i64,
}

// Three heights, less three times the level.
fn less_level(x: i32, y: i32, z: i32, level: i32) -> i64
    ensures { result ≡ x +ℤ y +ℤ z -ℤ pos 3 *ℤ level }
{
    x as i64 + y as i64 + z as i64 - 3 * level as i64
}

// The heights of the corners along next from half-edge a, less three times the level.
fn above_level(heights: &[i32], halves: &[u32], level: i32, a: u32) -> i64
    requires { CornerHeights heights.now halves.now a }
    ensures { (o s : List ℕ)
        → result ≡ above_level (links_of o halves.now s) (height_of heights.now) level a }
{
    let b = dcel::next(halves, a);
    let c = dcel::next(halves, b);
    let u = dcel::origin(halves, a);
    let v = dcel::origin(halves, b);
    let w = dcel::origin(halves, c);
    let x = heights::height(heights, u);
    let y = heights::height(heights, v);
    let z = heights::height(heights, w);
    less_level(x, y, z, level)
}

// One product more.
fn add_product(sum: i64, digit: u64, above: i64) -> i64
    requires { SmallProduct sum digit above }
    ensures { result ≡ sum +ℤ pos digit *ℤ above }
{
    sum + digit as i64 * above
}

// One triangle more, of this doubled area, its heights so far above the level.
fn add_triangle(sums: DigitSums, area: i64, above: i64) -> DigitSums
    requires { SmallSums sums × SmallTriangle area above }
    ensures { result ≡ plus_triangle sums area above }
{
    let a = area as u64;
    DigitSums {
        low: add_product(sums.low, a % 131072, above),
        middle: add_product(sums.middle, a / 131072 % 131072, above),
        high: add_product(sums.high, a / 17179869184, above),
    }
}

// The triangle of half-edge a, read and added.
fn add_face(
    sums: DigitSums,
    positions: &[i32],
    heights: &[i32],
    halves: &[u32],
    level: i32,
    a: u32,
) -> DigitSums
    requires { SmallSums sums × Triangle positions.now heights.now halves.now level a }
    ensures { (o s : List ℕ) → result ≡ plus_triangle sums
        (at_corners orient2d (links_of o halves.now s) (position_of positions.now) a)
        (above_level (links_of o halves.now s) (height_of heights.now) level a) }
{
    let area = mesh_check_rows::doubled_area_at(positions, halves, a);
    let above = above_level(heights, halves, level, a);
    add_triangle(sums, area, above)
}

// The sums over the inner faces.
fn add_faces(
    positions: &[i32],
    heights: &[i32],
    halves: &[u32],
    faces: &[u32],
    counts: Counts,
    level: i32,
) -> DigitSums
    requires { Measurable counts positions.now heights.now halves.now faces.now level }
    ensures { (o : List ℕ) → result ≡ face_sums (counts.faces - 1) (links_of o halves.now faces.now)
        (position_of positions.now) (height_of heights.now) level }
{
    let mut sums = DigitSums {
        low: 0,
        middle: 0,
        high: 0,
    };
    for f in 1..counts.faces {
        let a = dcel::adjacent(faces, f);
        sums = add_face(sums, positions, heights, halves, level, a);
    }
    sums
}

// The number that the sums make up.
fn whole(sums: DigitSums) -> Int128
    requires { SmallSums sums }
    ensures { int128_of result ≡ whole_of sums }
{
    Int128::from_i64(sums.low)
        .add(Int128::mul(sums.middle, 131072))
        .add(Int128::mul(sums.high, 17179869184))
}

// Both numbers, of a mesh that the checks accept.
fn measure(
    positions: &[i32],
    heights: &[i32],
    halves: &[u32],
    faces: &[u32],
    counts: Counts,
    level: i32,
) -> Volumes
    requires { Measurable counts positions.now heights.now halves.now faces.now level }
    ensures { (o : List ℕ) → result ≡ volumes_of (six_volumes_of counts (links_of o halves.now faces.now)
        (position_of positions.now) (height_of heights.now) level) }
{
    let sums = add_faces(positions, heights, halves, faces, counts, level);
    let six = whole(sums);
    Volumes {
        six_volumes: six,
        cubic_metres: six.cubic_metres(),
    }
}

// The public call: the volume above a level, or below it where it is negative.
pub fn volume(
    counts: Counts,
    positions: &[i32],
    heights: &[i32],
    outs: &[u32],
    halves: &[u32],
    faces: &[u32],
    level: i32,
) -> Result<Volumes, Refusal>
    ensures { result ≡ volume_of counts
        (surface_rows (mesh_rows positions.now outs.now halves.now faces.now)
        heights.now) level }
{
    let outside = !heights::validate_height(level);
    heights::check_surface(outside, counts, positions, heights, outs, halves, faces)?;
    Ok(measure(positions, heights, halves, faces, counts, level))
}
