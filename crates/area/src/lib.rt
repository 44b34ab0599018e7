// The calls that read areas (02, Change 3): `area_total`, the doubled areas of a mesh's triangles in total, and `side_query`, the doubled
// area of one triangle, whose sign says on which side of a line a point lies. Both are exact, and write nothing.
#![tactic(auto)]

ghost use Rattle.std.specs.Prelude.{◌≡◌, List, ℕ, ◌+ℤ◌};
ghost use Rattle.dcel.specs.MeshRows.{mesh_rows};
ghost use Rattle.dcel.specs.Rows.{links_of, position_of};
ghost use Rattle.heights.specs.Heights.{surface_rows};
ghost use Rattle.int128.specs.Int128.{int128_of, in_halves, Fits128};
ghost use Rattle.mesh.specs.Area.{area_total};
ghost use Rattle.area.specs.AreaTotal.{area_total_of};
ghost use Rattle.area.specs.SideQuery.{side_refused, side_query_of};
ghost use Rattle.area.specs.Summable.{Summable};

use int128::Int128;
use math::Point;
use mesh::Counts;
use mesh_check::Refusal;

// One doubled area more.
fn add_area(total: Int128, area: i64) -> Int128
    requires { Fits128 (int128_of total +ℤ area) }
    ensures { result ≡ in_halves (int128_of total +ℤ area) }
{
    total.add(Int128::from_i64(area))
}

// The inner faces' doubled areas, in total. Two million of them can pass 64 bits.
pub fn sum_areas(positions: &[i32], halves: &[u32], faces: &[u32], counts: Counts) -> Int128
    requires { Summable counts positions.now halves.now faces.now }
    ensures { (o : List ℕ) → result ≡ in_halves
        (area_total counts (links_of o halves.now faces.now) (position_of positions.now)) }
{
    let mut total = Int128 { high: 0, low: 0 };
    for f in 1..counts.faces {
        let a = dcel::adjacent(faces, f);
        let area = mesh_check_rows::doubled_area_at(positions, halves, a);
        total = add_area(total, area);
    }
    total
}

// The public call: the doubled areas of all triangles of a mesh, in total.
pub fn area_total(
    counts: Counts,
    positions: &[i32],
    heights: &[i32],
    outs: &[u32],
    halves: &[u32],
    faces: &[u32],
) -> Result<Int128, Refusal>
    ensures { result ≡ area_total_of counts
        (surface_rows (mesh_rows positions.now outs.now halves.now faces.now)
        heights.now) }
{
    heights::check_surface(false, counts, positions, heights, outs, halves, faces)?;
    Ok(sum_areas(positions, halves, faces, counts))
}

// Refusal 3, of the point at this place.
fn outside(place: u32) -> Result<i64, Refusal>
    ensures { result ≡ side_refused place }
{
    Err(Refusal::at(3, place))
}

// The public call: twice the signed area of the triangle p1 p2 q, positive where q lies left of the line from p1 to p2.
pub fn side_query(p1: Point, p2: Point, q: Point) -> Result<i64, Refusal>
    ensures { result ≡ side_query_of p1 p2 q }
{
    if !math::validate_vertex(p1) {
        return outside(0);
    }
    if !math::validate_vertex(p2) {
        return outside(1);
    }
    if !math::validate_vertex(q) {
        return outside(2);
    }
    Ok(math::side_query(p1, p2, q))
}
