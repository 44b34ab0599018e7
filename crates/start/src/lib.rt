// What a step and a run do before their first point and after their last: refusals 1 to 7 for a lent mesh, the points and the other rows;
// the ring of the mesh's boundary, built in the lent rows; and zeros in the rows that end so.
#![tactic(auto)]

ghost use Rattle.std.specs.Prelude.{◌≡◌, length};
ghost use Rattle.dcel.specs.MeshRows.{mesh_rows};
ghost use Rattle.ring_rows.specs.RingRows.{ring_rows};
ghost use Rattle.start.specs.Start.{sweep_rows_short, sweep_checked};
ghost use Rattle.start.specs.StartRows.{ToStart, Started, RowsCleared};

use angle::Point2;
use mesh::Counts;
use mesh_check::Refusal;
use ring_rows::{Hull, Node};

// One of the rows that are not the mesh's, given by their lengths, is too short for n vertices. `short`: another one is.
#[tactic(auto, unfolding(crate::specs::Start::sweep_rows_short))]
pub fn sweep_rows_short(
    short: bool,
    n: usize,
    nodes: usize,
    freed: usize,
    buckets: usize,
    pending: usize,
) -> bool
    ensures { result ≡ sweep_rows_short short n nodes freed buckets pending }
{
    short || locate::ring_rows_short(n, nodes, freed, buckets) || pending::is_short(pending)
}

// Rows 1 to 7 of the table, for a call that is given points, a centre, and rows for the ring and the pending list, which are given by their
// lengths.
pub fn check_sweep(
    points: &[i32],
    short: bool,
    counts: Counts,
    positions: &[i32],
    outs: &[u32],
    halves: &[u32],
    faces: &[u32],
    nodes: usize,
    freed: usize,
    buckets: usize,
    pending: usize,
    center: Point2,
) -> Result<(), Refusal>
    ensures { result ≡ sweep_checked points.now short
        counts (mesh_rows positions.now outs.now halves.now faces.now)
        nodes freed buckets pending center }
{
    let n = mesh_check::vertex_count(counts, points);
    let few = sweep_rows_short(short, n, nodes, freed, buckets, pending);
    locate::check_start(points, few, counts, positions, outs, halves, faces, center)
}

// The ring of an accepted mesh's boundary. No node is freed yet.
pub fn start_ring(
    positions: &[i32],
    halves: &[u32],
    faces: &[u32],
    nodes: &mut [Node],
    buckets: &mut [u32],
    counts: Counts,
    center: Point2,
) -> Hull
    requires { ToStart counts positions.now halves.now faces.now
        (length nodes.old) (length buckets.old) center }
    ensures { Started counts positions.now halves.now faces.now
        nodes.new buckets.new result center }
{
    let start = dcel::adjacent(faces, 0);
    let size = hull::convex_hull_size(counts);
    hull::from_triangulation(positions, halves, nodes, buckets, start, size, center)
}

// The ring's rows and the pending list to zeros, each over its whole length.
pub fn clear_rows(nodes: &mut [Node], freed: &mut [u32], buckets: &mut [u32], pending: &mut [u32])
    ensures { RowsCleared (ring_rows nodes.old freed.old buckets.old) pending.old
        (ring_rows nodes.new freed.new buckets.new) pending.new }
{
    locate::clear_ring(nodes, freed, buckets);
    dcel::clear(pending);
}
