// Point location while all vertices of the mesh, which the caller lends, lie on one line, as
// `locate_when_all_vertices_on_line` of triangulation_ext.rs makes it. Nothing is written. What is answered is
// `locate_when_all_vertices_on_line` of crate line, which has the definitions and what an answer claims.
// The Rust sorts the vertices and makes a binary search; here one pass over them finds the two neighbours of the point.
// The row of faces is not read: a contract says what it says whatever that row, a, holds.
#![tactic(auto)]

ghost use Rattle.std.specs.Prelude.{◌&&◌, List, ◌≡◌, ◌<◌, ℕ, pos, ◌+ℤ◌, ◌*ℤ◌};
ghost use Rattle.dcel.specs.Rows.{links_of, position_of};
ghost use Rattle.line.specs.Order.{comes_before};
ghost use Rattle.line.specs.Locate.{edge_from_neighbors, locate_on_line, locate_when_all_vertices_on_line};
ghost use Rattle.line_search.specs.LineRows.{LineReady, VerticesReady, OutReady, neighbors_of, FoundIs, FoundReady, number_of, at_neighbors};

use line::PositionWhenAllVerticesOnLine;
use math::Point;
use mesh::Counts;

// The vertex at a point; or, where there is none, the last vertex before the point and the first after it, in this order.
#[derive(Clone, Copy)]
pub enum Neighbors {
    Vertex(u32),
    Between(Option<u32>, Option<u32>),
}

// A number for each position, in the order of positions: by x, then y.
fn key(p: Point) -> i64
    ensures { result ≡ p.x *ℤ pos 4294967296 +ℤ (p.y +ℤ pos 2147483648) }
{
    i64::from(p.x) * 4294967296 + (i64::from(p.y) + 2147483648)
}

// The order of positions. One number takes fewer instructions than a pair, and on a line of points nearly all are executed for this.
fn comes_before(a: Point, b: Point) -> bool
    ensures { result ≡ comes_before a b }
{
    key(a) < key(b)
}

fn is_between(low: Point, p: Point, high: Point) -> bool
    ensures { result ≡ (comes_before low p && comes_before p high) }
{
    comes_before(low, p) && comes_before(p, high)
}

// One pass: `before` at `low` and `after` at `high` are the neighbours among the vertices so far. At first the two positions
// are out of range, so that every vertex is between them. Later most vertices are not, and one test is enough for those.
fn neighbors_of(positions: &[i32], counts: Counts, point: Point) -> Neighbors
    requires { (0 < counts.vertices) × VerticesReady counts positions.now point }
    ensures { (result ≡ neighbors_of counts (position_of positions.now) point) × FoundIs counts result }
{
    let mut before = None;
    let mut after = None;
    let mut low = Point { x: -16777217, y: 0 };
    let mut high = Point { x: 16777217, y: 0 };
    for v in 0..counts.vertices {
        let p = dcel::position(positions, v);
        if is_between(low, p, high) {
            if comes_before(p, point) {
                before = Some(v);
                low = p;
            } else if comes_before(point, p) {
                after = Some(v);
                high = p;
            } else {
                return Neighbors::Vertex(v);
            }
        }
    }
    Neighbors::Between(before, after)
}

// `get_edge_from_neighbors`: of the out edges of v the first that leads to u. On a line there are two at most.
fn edge_from_neighbors(outs: &[u32], halves: &[u32], v: u32, u: u32) -> u32
    requires { OutReady outs.now halves.now v }
    ensures { (a : List ℕ) → result ≡ edge_from_neighbors (links_of outs.now halves.now a) v u }
{
    let e = dcel::out(outs, v);
    if dcel::to(halves, e) == u {
        return e;
    }
    dcel::rev(dcel::prev(halves, e))
}

// No vertex is at the point: its place by its two neighbours, of which there is one at least.
fn at_neighbors(
    outs: &[u32],
    halves: &[u32],
    counts: Counts,
    before: Option<u32>,
    after: Option<u32>,
) -> PositionWhenAllVerticesOnLine
    requires { FoundReady counts outs.now halves.now before after }
    ensures { (a : List ℕ)
        → result ≡ at_neighbors counts (links_of outs.now halves.now a) (number_of counts before) (number_of counts after) }
{
    let Some(u) = before else {
        return PositionWhenAllVerticesOnLine::ExtendingLine(after.unwrap());
    };
    let Some(v) = after else {
        return PositionWhenAllVerticesOnLine::ExtendingLine(u);
    };
    PositionWhenAllVerticesOnLine::OnEdge(edge_from_neighbors(outs, halves, v, u))
}

// The point is on the line.
fn locate_on_line(
    positions: &[i32],
    outs: &[u32],
    halves: &[u32],
    counts: Counts,
    point: Point,
) -> PositionWhenAllVerticesOnLine
    requires { LineReady counts positions.now outs.now halves.now point }
    ensures { (a : List ℕ)
        → result ≡ locate_on_line counts (links_of outs.now halves.now a) (position_of positions.now) point }
{
    match neighbors_of(positions, counts, point) {
        Neighbors::Vertex(v) => PositionWhenAllVerticesOnLine::OnVertex(v),
        Neighbors::Between(before, after) => at_neighbors(outs, halves, counts, before, after),
    }
}

// Where the point lies: off the line of half-edge 0, on its left or its right side, or on it.
pub fn locate_when_all_vertices_on_line(
    positions: &[i32],
    outs: &[u32],
    halves: &[u32],
    counts: Counts,
    point: Point,
) -> PositionWhenAllVerticesOnLine
    requires { LineReady counts positions.now outs.now halves.now point }
    ensures { (a : List ℕ)
        → result ≡ locate_when_all_vertices_on_line counts (links_of outs.now halves.now a)
        (position_of positions.now) point }
{
    let u = dcel::origin(halves, 0);
    let from = dcel::position(positions, u);
    let w = dcel::to(halves, 0);
    let to = dcel::position(positions, w);
    let area = math::side_query(from, to, point);
    if area > 0 {
        return PositionWhenAllVerticesOnLine::NotOnLine(0);
    }
    if area < 0 {
        return PositionWhenAllVerticesOnLine::NotOnLine(1);
    }
    locate_on_line(positions, outs, halves, counts, point)
}
