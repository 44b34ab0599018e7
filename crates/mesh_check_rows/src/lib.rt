// Refusals 1 to 5 of 01's table, which every public call tests first: is a lent mesh one that the calls accept? And the
// call `check`, which tests nothing else.
// Nothing is written, and nothing is remembered but counts. What each function answers is an equation with a definition
// of the crate `mesh_check`.
#![tactic(auto)]

ghost use Rattle.std.specs.Prelude.{◌≡◌, List, ℕ, ◌+◌, ◌*◌, ◌<◌, ◌≤◌, length};
ghost use Rattle.dcel.specs.MeshRows.{mesh_rows};
ghost use Rattle.dcel.specs.Rows.{links_of, position_of};
ghost use Rattle.math.specs.Determinant.{orient2d};
ghost use Rattle.mesh.specs.Area.{at_corners};
ghost use Rattle.mesh_check.specs.Accepted.{RowsInLimits};
ghost use Rattle.mesh_check.specs.Check.{count_refused, mesh_rows_short, first_outside, vertex_or_point, turns_left, first_not_left};
ghost use Rattle.mesh_check.specs.Check.{rows_short, check_faces, check_of, range_with, check_with};
ghost use Rattle.mesh_check.specs.Readable.{Corners, Readable};

use mesh::Counts;
use mesh_check::Refusal;

#[tactic(auto, unfolding(mesh_check::specs::Check::count_refused))]
fn count_refused(n: usize) -> bool
    ensures { result ≡ count_refused n }
{
    n < 3 || n > 1000000
}

// One of the mesh's rows, given by their lengths, is too short for n vertices.
#[tactic(auto, unfolding(mesh_check::specs::Check::mesh_rows_short))]
pub fn mesh_rows_short(n: usize, positions: usize, outs: usize, halves: usize, faces: usize) -> bool
    requires { n ≤ 1000000 }
    ensures { result ≡ mesh_rows_short n positions outs halves faces }
{
    positions < 2 * n || outs < n || halves < 24 * n || faces < 2 * n
}

fn rows_short(
    n: usize,
    points: &[i32],
    positions: &[i32],
    outs: &[u32],
    halves: &[u32],
    faces: &[u32],
) -> bool
    requires { n ≤ 1000000 }
    ensures { result ≡ rows_short n points.now
        (mesh_rows positions.now outs.now halves.now faces.now) }
{
    if points.len() % 2 != 0 {
        return true;
    }
    mesh_rows_short(n, positions.len(), outs.len(), halves.len(), faces.len())
}

// The first of so many points of a row with a coordinate out of range, or their number, as `first_below` of the definition answers.
pub fn first_outside(row: &[i32], count: u32) -> u32
    requires { 2 * count ≤ length row.now }
    ensures { result ≡ first_outside count (position_of row.now) }
{
    for v in 0..count {
        if !math::validate_vertex(dcel::position(row, v)) {
            return v;
        }
    }
    count
}

// The same over the seed's s vertices and the m points after them.
fn first_outside_with(positions: &[i32], s: u32, points: &[i32], m: u32) -> u32
    requires { (2 * s ≤ length positions.now) × ((2 * m ≤ length points.now) × (s + m ≤ 1000000)) }
    ensures { result ≡ first_outside (s + m) (vertex_or_point s (position_of positions.now) (position_of points.now)) }
{
    let i = first_outside(positions, s);
    if i < s {
        return i;
    }
    s + first_outside(points, m)
}

// Twice the area of the triangle of the corners along next from half-edge a.
pub fn doubled_area_at(positions: &[i32], halves: &[u32], a: u32) -> i64
    requires { Corners positions.now halves.now a }
    ensures { (o s : List ℕ)
        → result ≡ at_corners orient2d (links_of o halves.now s) (position_of positions.now) a }
{
    let b = dcel::next(halves, a);
    let c = dcel::next(halves, b);
    let u = dcel::origin(halves, a);
    let v = dcel::origin(halves, b);
    let w = dcel::origin(halves, c);
    let p = dcel::position(positions, u);
    let q = dcel::position(positions, v);
    let r = dcel::position(positions, w);
    math::side_query(p, q, r)
}

// The three corners along next from half-edge a turn strictly left.
fn turns_left(positions: &[i32], halves: &[u32], a: u32) -> bool
    requires { Corners positions.now halves.now a }
    ensures { (o s : List ℕ) → result ≡ turns_left (links_of o halves.now s) (position_of positions.now) a }
{
    doubled_area_at(positions, halves, a) > 0
}

// The lowest inner face that does not turn strictly left, or the number of faces, as `first_below` of the definition answers.
fn first_not_left(positions: &[i32], halves: &[u32], faces: &[u32], counts: Counts) -> u32
    requires { Readable counts positions.now halves.now faces.now }
    ensures { (o : List ℕ)
        → result ≡ first_not_left counts (links_of o halves.now faces.now)
        (position_of positions.now) }
{
    for f in 1..counts.faces {
        if !turns_left(positions, halves, dcel::adjacent(faces, f)) {
            return f;
        }
    }
    counts.faces
}

// Rows 1 to 3 of the table, for a call that is also given points, none or more. `short`: another row of the call is too short.
pub fn check_range(
    points: &[i32],
    short: bool,
    counts: Counts,
    positions: &[i32],
    outs: &[u32],
    halves: &[u32],
    faces: &[u32],
) -> Result<(), Refusal>
    ensures { result ≡ range_with points.now short counts
        (mesh_rows positions.now outs.now halves.now faces.now) }
{
    let n = mesh_check::vertex_count(counts, points);
    if count_refused(n) {
        return Err(Refusal::of_call(1));
    }
    if short {
        return Err(Refusal::of_call(2));
    }
    if rows_short(n, points, positions, outs, halves, faces) {
        return Err(Refusal::of_call(2));
    }
    let m = mesh_check::point_count(points) as u32;
    let i = first_outside_with(positions, counts.vertices, points, m);
    if (i as usize) < n {
        return Err(Refusal::at(3, i));
    }
    Ok(())
}

// Rows 4 and 5, of rows that are long enough for positions in range.
fn check_faces(
    counts: Counts,
    positions: &[i32],
    outs: &[u32],
    halves: &[u32],
    faces: &[u32],
) -> Result<(), Refusal>
    requires { RowsInLimits counts (mesh_rows positions.now outs.now halves.now faces.now) }
    ensures { result ≡ check_faces counts (links_of outs.now halves.now faces.now)
        (position_of positions.now) }
{
    if !mesh_rules::mesh_rules(outs, halves, faces, counts) {
        return Err(Refusal::of_call(4));
    }
    let f = first_not_left(positions, halves, faces, counts);
    if f < counts.faces {
        return Err(Refusal::at(5, f));
    }
    Ok(())
}

// Rows 1 to 5, for a call that is also given points.
pub fn check_with(
    points: &[i32],
    short: bool,
    counts: Counts,
    positions: &[i32],
    outs: &[u32],
    halves: &[u32],
    faces: &[u32],
) -> Result<(), Refusal>
    ensures { result ≡ check_with points.now short counts
        (mesh_rows positions.now outs.now halves.now faces.now) }
{
    check_range(points, short, counts, positions, outs, halves, faces)?;
    check_faces(counts, positions, outs, halves, faces)
}

// The public call: does a lent mesh keep the rules, turn left everywhere and stay in range?
pub fn check(
    counts: Counts,
    positions: &[i32],
    outs: &[u32],
    halves: &[u32],
    faces: &[u32],
) -> Result<(), Refusal>
    ensures { result ≡ check_of counts
        (mesh_rows positions.now outs.now halves.now faces.now) }
{
    check_with(&[], false, counts, positions, outs, halves, faces)
}
