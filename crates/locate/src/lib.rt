// The call `locate` (01): the boundary edge at an angle about a centre. `check_start` has the refusals 1 to 7, which
// every call that is given a centre tests first; they read the mesh alone.
// Then the ring is built in the lent rows, asked once, and its rows are cleared.
#![tactic(auto)]

ghost use Rattle.std.specs.Prelude.{◌≡◌, List, [], length};
ghost use Rattle.mesh_check.specs.Check.{and_then};
ghost use Rattle.dcel.specs.MeshRows.{mesh_rows};
ghost use Rattle.ring_rows.specs.RingRows.{ring_rows, ring_zeros};
ghost use Rattle.locate.specs.Locate.{ring_rows_short, check_start, check_angle, located_with, locate_of};
ghost use Rattle.locate.specs.Rows.{ClosedBoundary, ring_checked, ToAsk, PlaceOnBoundary};

use angle::Point2;
use mesh::Counts;
use mesh_check::Refusal;
use ring_rows::Node;

// A boundary edge, and how many nodes of the ring were passed after the first on the way to it.
#[derive(Clone, Copy)]
pub struct Place {
    pub edge: u32,
    pub passed: u32,
}

// One of the ring's rows, given by their lengths, is too short for n vertices.
#[tactic(auto, unfolding(crate::specs::Locate::ring_rows_short))]
pub fn ring_rows_short(n: usize, nodes: usize, freed: usize, buckets: usize) -> bool
    ensures { result ≡ ring_rows_short n nodes freed buckets }
{
    nodes <= n || freed <= n || buckets < 16 || buckets < n
}

// Rows 6 and 7, of a boundary of `size` half-edges from `start` on.
fn check_ring(
    positions: &[i32],
    halves: &[u32],
    start: u32,
    size: u32,
    center: Point2,
) -> Result<(), Refusal>
    requires { ClosedBoundary positions.now halves.now start size }
    ensures { result ≡ ring_checked positions.now halves.now center.x center.y start size }
{
    if !angle::validate_center(center) {
        return Err(Refusal::of_call(6));
    }
    if hull::meets_center(positions, halves, start, size, center) {
        return Err(Refusal::of_call(6));
    }
    if !hull::is_strict(positions, halves, start, size, center) {
        return Err(Refusal::of_call(7));
    }
    Ok(())
}

// Rows 1 to 7, for a call that is also given points, none or more. `short`: a row that is not the mesh's, nor that of
// the points, is too short.
pub fn check_start(
    points: &[i32],
    short: bool,
    counts: Counts,
    positions: &[i32],
    outs: &[u32],
    halves: &[u32],
    faces: &[u32],
    center: Point2,
) -> Result<(), Refusal>
    ensures { result ≡ check_start points.now short counts
        (mesh_rows positions.now outs.now halves.now faces.now) center }
{
    mesh_check_rows::check_with(points, short, counts, positions, outs, halves, faces)?;
    let start = dcel::adjacent(faces, 0);
    let size = hull::convex_hull_size(counts);
    check_ring(positions, halves, start, size, center)
}

// Row 8.
fn check_angle(a: f64) -> Result<(), Refusal>
    ensures { result ≡ check_angle a }
{
    if angle::validate_angle(a) {
        Ok(())
    } else {
        Err(Refusal::of_call(8))
    }
}

// Rows 1 to 8. `short`: one of the ring's rows is too short.
fn check_locate(
    short: bool,
    counts: Counts,
    positions: &[i32],
    outs: &[u32],
    halves: &[u32],
    faces: &[u32],
    center: Point2,
    a: f64,
) -> Result<(), Refusal>
    ensures { result ≡ and_then (check_start [] short counts
        (mesh_rows positions.now outs.now halves.now faces.now) center)
        (check_angle a) }
{
    check_start(&[], short, counts, positions, outs, halves, faces, center)?;
    check_angle(a)
}

// The ring of a strict boundary, built in the lent rows and asked once.
fn place_at(
    positions: &[i32],
    halves: &[u32],
    nodes: &mut [Node],
    buckets: &mut [u32],
    start: u32,
    size: u32,
    center: Point2,
    a: f64,
) -> Place
    requires { ToAsk positions.now halves.now center.x center.y start size (length nodes.old) (length buckets.old) a }
    ensures { PlaceOnBoundary positions.now halves.now center.x center.y start size a result }
{
    let ring = hull::from_triangulation(positions, halves, nodes, buckets, start, size, center);
    let found = ring_rows::get(nodes, buckets, ring, a);
    Place {
        edge: found.edge,
        passed: found.passed,
    }
}

// The ring's rows to zeros, each over its whole length.
pub fn clear_ring(nodes: &mut [Node], freed: &mut [u32], buckets: &mut [u32])
    ensures { ring_rows nodes.new freed.new buckets.new
        ≡ ring_zeros (ring_rows nodes.old freed.old buckets.old) }
{
    ring_rows::clear_nodes(nodes);
    dcel::clear(freed);
    dcel::clear(buckets);
}

// The public call: the boundary edge whose segment holds an angle about a centre, and how many nodes of the ring were passed to find it.
pub fn locate(
    counts: Counts,
    positions: &[i32],
    outs: &[u32],
    halves: &[u32],
    faces: &[u32],
    nodes: &mut [Node],
    freed: &mut [u32],
    buckets: &mut [u32],
    center: Point2,
    angle: f64,
) -> Result<Place, Refusal>
    ensures { located_with result (ring_rows nodes.new freed.new buckets.new)
        ≡ locate_of counts (mesh_rows positions.now outs.now halves.now faces.now)
        (ring_rows nodes.old freed.old buckets.old) center angle }
{
    let short = ring_rows_short(
        counts.vertices as usize,
        nodes.len(),
        freed.len(),
        buckets.len(),
    );
    check_locate(short, counts, positions, outs, halves, faces, center, angle)?;
    let start = dcel::adjacent(faces, 0);
    let size = hull::convex_hull_size(counts);
    let place = place_at(
        positions, halves, nodes, buckets, start, size, center, angle,
    );
    clear_ring(nodes, freed, buckets);
    Ok(place)
}
