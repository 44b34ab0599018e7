// The ring of a mesh's boundary about a centre (bulk_load.rs, `Hull`): the tests before it is built, building it, and a
// new vertex's way into it. The boundary is the `size` half-edges from `start` on, by next.
// The rows of the ring itself are those of crate `ring_rows`.
#![tactic(auto)]

ghost use Rattle.std.specs.Prelude.{◌≡◌, ◌&&◌, ◌+◌, ◌-◌, ◌*◌, ◌<◌, ◌≤◌, ◌^◌, leb, eqb, length};
ghost use Rattle.sums.specs.Bounded.{any_below};
ghost use Rattle.ring.specs.Ring.{full_turn, is_strict};
ghost use Rattle.ring_rows.specs.Rows.{nodes_of};
ghost use Rattle.hull.specs.Boundary.{BoundaryRows, AngledBoundary, Angled, AngleAt, origin_at_center, edge_at, angles_of, NodesOfEdges, ToBuild};
ghost use Rattle.hull.specs.Held.{FromBoundary};
ghost use Rattle.hull.specs.EntersRing.{ToEnterRing, EnteredRing};

use angle::Point2;
use mesh::Counts;
use ring_rows::{Hull, Node};

// `convex_hull_size`: how many half-edges the boundary has, each inner face having three of the others.
pub fn convex_hull_size(counts: Counts) -> u32
    requires { (2 * counts.edges < 2 ^ 32) × (1 ≤ counts.faces) × (3 * (counts.faces - 1) ≤ 2 * counts.edges) }
    ensures { result ≡ 2 * counts.edges - 3 * (counts.faces - 1) }
{
    2 * counts.edges - 3 * (counts.faces - 1)
}

// Whether a boundary vertex equals the centre: the third part of refusal 6.
pub fn meets_center(
    positions: &[i32],
    halves: &[u32],
    start: u32,
    size: u32,
    center: Point2,
) -> bool
    requires { BoundaryRows positions.now halves.now start }
    ensures { result ≡ any_below size (λ k. origin_at_center positions.now halves.now
        center.x center.y (edge_at halves.now start k)) }
{
    let mut e = start;
    for _ in 0..size {
        let p = dcel::position(positions, dcel::origin(halves, e));
        if angle::is_at_center(p.x, p.y, center) {
            return true;
        }
        e = dcel::next(halves, e);
    }
    false
}

// The angle at the origin of a boundary edge.
pub fn angle_at(positions: &[i32], halves: &[u32], e: u32, center: Point2) -> f64
    requires { Angled positions.now halves.now center.x center.y e }
    ensures { AngleAt positions.now halves.now center.x center.y e result }
{
    let p = dcel::position(positions, dcel::origin(halves, e));
    angle::angle_about(p.x, p.y, center)
}

// At least three angles, exactly one followed by a smaller one, no gap over 3/4, no equal neighbours.
fn decide(size: u32, wraps: u32, wides: u32, equals: u32) -> bool
    ensures { result ≡ (leb 3 size && eqb wraps 1 && eqb wides 0 && eqb equals 0) }
{
    size >= 3 && wraps == 1 && wides == 0 && equals == 0
}

// Whether the ring is strict: refusal 7. Once around, with nothing kept but three counts.
pub fn is_strict(positions: &[i32], halves: &[u32], start: u32, size: u32, center: Point2) -> bool
    requires { AngledBoundary positions.now halves.now center.x center.y start × (edge_at halves.now start size ≡ start) }
    ensures { result ≡ is_strict full_turn (angles_of positions.now halves.now center.x center.y start size) }
{
    let mut e = start;
    let mut from = angle_at(positions, halves, start, center);
    let mut wraps: u32 = 0;
    let mut wides: u32 = 0;
    let mut equals: u32 = 0;
    for _ in 0..size {
        e = dcel::next(halves, e);
        let to = angle_at(positions, halves, e, center);
        wraps += u32::from(angle::less(to, from));
        wides += u32::from(segment::is_wide(from, to));
        equals += u32::from(angle::equal(from, to));
        from = to;
    }
    decide(size, wraps, wides, equals)
}

// A node for each boundary edge, in order.
fn build_nodes(
    positions: &[i32],
    halves: &[u32],
    nodes: &mut [Node],
    start: u32,
    size: u32,
    center: Point2,
)
    requires { AngledBoundary positions.now halves.now center.x center.y start × (size ≤ length nodes.old) × (0 < size) }
    ensures { NodesOfEdges positions.now halves.now center.x center.y start size
        (nodes_of nodes.new) }
{
    let mut e = start;
    let mut left = size - 1;
    for k in 0..size {
        let node = Node {
            angle: angle_at(positions, halves, e, center),
            edge: e,
            left,
            right: (k + 1) % size,
        };
        ring_rows::store(nodes, k, node);
        e = dcel::next(halves, e);
        left = k;
    }
}

// The ring of a strict boundary: its nodes, and 8 buckets.
pub fn from_triangulation(
    positions: &[i32],
    halves: &[u32],
    nodes: &mut [Node],
    buckets: &mut [u32],
    start: u32,
    size: u32,
    center: Point2,
) -> Hull
    requires { ToBuild positions.now halves.now center.x center.y start size (length nodes.old) (length buckets.old) }
    ensures { FromBoundary positions.now halves.now center.x center.y start size
        nodes.new buckets.new result }
{
    build_nodes(positions, halves, nodes, start, size, center);
    ring_rows::initialize_buckets(nodes, buckets, 8, 0, size);
    Hull {
        buckets: 8,
        nodes: size,
        freed: 0,
    }
}

// `insert`: a step has added a vertex at the angle `middle`; its edges `leftedge` and `rightedge` stand for those between the angles `left`
// and `right`. Then the number of buckets follows that of the nodes.
pub fn insert(
    nodes: &mut [Node],
    freed: &mut [u32],
    buckets: &mut [u32],
    hull: Hull,
    near: u32,
    left: f64,
    middle: f64,
    right: f64,
    leftedge: u32,
    rightedge: u32,
) -> Hull
    requires { ToEnterRing nodes.old freed.old buckets.old hull left middle right leftedge rightedge }
    ensures { EnteredRing
        nodes.old freed.old buckets.old
        nodes.new freed.new buckets.new
        hull left middle right leftedge rightedge result }
{
    let entered = ring_insert::insert(
        nodes, freed, buckets, hull, near, left, middle, right, leftedge, rightedge,
    );
    ring_insert::adjust_bucket_size_if_necessary(nodes, buckets, entered)
}
