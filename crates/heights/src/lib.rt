// Heights on the vertices, in a row of their own beside the mesh's: a height read and stored, the range of heights, and refusal 10, which
// comes straight after 3. The call `check` of a mesh with heights. What each function answers is an equation with a definition of
// `specs/Heights.antt`.
#![tactic(auto)]

ghost use Rattle.std.specs.Prelude.{Bool, ◌≡◌, ◌<◌, ◌≤◌, length};
ghost use Rattle.dcel.specs.MeshRows.{mesh_rows};
ghost use Rattle.mesh_check.specs.Check.{point_count, vertex_count};
ghost use Rattle.sums.specs.Put.{put};
ghost use Rattle.heights.specs.Heights.{surface_rows, height_of, is_valid_height, heights_outside};
ghost use Rattle.heights.specs.Heights.{heights_lent, any_heights_short, any_heights_outside, check_ten, heights_tested, surface_checked};

use mesh::Counts;
use mesh_check::Refusal;

fn height_at(row: &[i32], v: usize) -> i32
    requires { v < length row.now }
    ensures { result ≡ height_of row.now v }
{
    row[v]
}

// The height of a vertex, or of a point where the row is that of the points.
pub fn height(row: &[i32], v: u32) -> i32
    requires { v < length row.now }
    ensures { result ≡ height_of row.now v }
{
    height_at(row, v as usize)
}

pub fn set_height(row: &mut [i32], v: u32, z: i32)
    requires { v < length row.old }
    ensures { height_of row.new ≡ put (height_of row.old) v z }
{
    row[v as usize] = z;
}

#[tactic(auto, unfolding(crate::specs::Heights::is_valid_height))]
pub fn validate_height(z: i32) -> bool
    ensures { result ≡ is_valid_height z }
{
    z.unsigned_abs() <= 1048576
}

// One of so many heights of a row is outside. Every one is looked at, so that several can be at a time.
pub fn heights_outside(row: &[i32], count: usize) -> bool
    requires { count ≤ length row.now }
    ensures { result ≡ heights_outside count row.now }
{
    let mut outside = false;
    for v in 0..count {
        if !validate_height(height_at(row, v)) {
            outside = true;
        }
    }
    outside
}

// A row of heights is too short: one for each vertex, those that the points may become among them, and one for each point.
#[tactic(auto, unfolding(crate::specs::Heights::any_heights_short))]
fn any_heights_short(points: &[i32], point_heights: &[i32], counts: Counts, heights: &[i32]) -> bool
    ensures { (short outside : Bool)
        → result ≡ any_heights_short (heights_lent points.now point_heights.now short outside) counts heights.now }
{
    heights.len() < mesh_check::vertex_count(counts, points)
        || point_heights.len() < mesh_check::point_count(points)
}

// A height of a vertex in use or of a point is outside, or `outside`.
#[tactic(auto, unfolding(crate::specs::Heights::any_heights_outside))]
fn any_heights_outside(
    points: &[i32],
    point_heights: &[i32],
    outside: bool,
    counts: Counts,
    heights: &[i32],
) -> bool
    requires { (vertex_count counts points.now ≤ length heights.now) × (point_count points.now ≤ length point_heights.now) }
    ensures { (short : Bool)
        → result ≡ any_heights_outside (heights_lent points.now point_heights.now short outside) counts heights.now }
{
    outside
        || heights_outside(heights, counts.vertices as usize)
        || heights_outside(point_heights, mesh_check::point_count(points))
}

// Rows 1, 2 and 3 of the table, and then 10 where `outside`. `short`: a row is too short that is neither the mesh's nor that of the points.
fn check_ten(
    points: &[i32],
    short: bool,
    outside: bool,
    counts: Counts,
    positions: &[i32],
    outs: &[u32],
    halves: &[u32],
    faces: &[u32],
) -> Result<(), Refusal>
    ensures { result ≡ check_ten points.now short outside counts
        (mesh_rows positions.now outs.now halves.now faces.now) }
{
    mesh_check_rows::check_range(points, short, counts, positions, outs, halves, faces)?;
    if outside {
        return Err(Refusal::of_call(10));
    }
    Ok(())
}

// What rows 1, 2, 3 and 10 answer a call that has heights: its points and theirs, none or more; `short`, another of its rows is too short;
// `outside`, a level is. Where every row of heights is long enough and nothing is outside it accepts them at once: rows 1 to 3 are then
// those of the call's own table.
pub fn check_heights(
    points: &[i32],
    point_heights: &[i32],
    short: bool,
    outside: bool,
    counts: Counts,
    positions: &[i32],
    heights: &[i32],
    outs: &[u32],
    halves: &[u32],
    faces: &[u32],
) -> Result<(), Refusal>
    ensures { result ≡ heights_tested (heights_lent points.now point_heights.now short outside) counts
        (surface_rows (mesh_rows positions.now outs.now halves.now faces.now)
        heights.now) }
{
    if any_heights_short(points, point_heights, counts, heights) {
        return check_ten(
            points, true, outside, counts, positions, outs, halves, faces,
        );
    }
    if any_heights_outside(points, point_heights, outside, counts, heights) {
        return check_ten(points, short, true, counts, positions, outs, halves, faces);
    }
    Ok(())
}

// The public call `check`, of a mesh with heights: rows 1, 2, 3, 10, 4 and 5. `outside`: a level that the call has is outside.
pub fn check_surface(
    outside: bool,
    counts: Counts,
    positions: &[i32],
    heights: &[i32],
    outs: &[u32],
    halves: &[u32],
    faces: &[u32],
) -> Result<(), Refusal>
    ensures { result ≡ surface_checked outside counts
        (surface_rows (mesh_rows positions.now outs.now halves.now faces.now)
        heights.now) }
{
    check_heights(
        &[],
        &[],
        false,
        outside,
        counts,
        positions,
        heights,
        outs,
        halves,
        faces,
    )?;
    mesh_check_rows::check(counts, positions, outs, halves, faces)
}
