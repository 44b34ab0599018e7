// Point location in a mesh that the caller lends, as `locate_with_hint_fixed_core` of triangulation_ext.rs makes it from
// vertex 0: the walk to a nearest vertex, the rotating walk, and a scan where the Rust would never end. Nothing is
// written. What is answered is `locate_point` of crate location, which has the definitions and what an answer claims.
// Two edges of a triangle share a corner, so a turn reads three positions. A function that is not lent a row says what it
// says whatever that row holds: o are the out edges and a or s the faces; and `counts` may stand for the contract alone.
#![tactic(auto)]

ghost use Rattle.std.specs.Prelude.{List, ◌≡◌, ℕ, ◌+◌, ◌<◌, ◌^◌};
ghost use Rattle.dcel.specs.Rows.{halves_of, links_of, position_of, There};
ghost use Rattle.location.specs.Search.{beyond, across_edge, rotate_ccw, rotate_cw, on_line_of, by_side, search_turn, search_from, nearest};
ghost use Rattle.location.specs.Scan.{holds_at, place_at_of, first_left, scan, locate_point};
ghost use Rattle.math.specs.declared.Point.{Point};
ghost use Rattle.mesh.specs.Area.{hull_edge};
ghost use Rattle.sums.specs.Half.{rev};
ghost use Rattle.search.specs.SearchRows.{SearchReady, NearReady, SpokesReady, CloserIs, HoldingIs};
ghost use Rattle.search.specs.SearchRows.{TurnReady, EndsReady, LineReady};
ghost use Rattle.search.specs.SearchRows.{CornersIn, CornersOf, TriangleReady, ScanReady, LeftReady};

use location::{PositionInTriangulation, SearchState};
use math::Point;
use mesh::Counts;

// The half-edges after half-edge a in its triangle, the corners from a's origin on, and their positions.
#[derive(Clone, Copy)]
pub struct Corners {
    pub b: u32,
    pub c: u32,
    pub u: u32,
    pub v: u32,
    pub w: u32,
    pub p: Point,
    pub q: Point,
    pub r: Point,
}

// The end of the first out edge of vertex v, in turning order from the stored one, that is closer to the point than v,
// which is at this squared distance; and the end's squared distance. Turning comes back to the stored edge.
fn first_closer(
    positions: &[i32],
    outs: &[u32],
    halves: &[u32],
    counts: Counts,
    v: u32,
    distance: i64,
    point: Point,
) -> Option<(u32, i64)>
    requires { SpokesReady counts positions.now outs.now halves.now point v distance }
    ensures { (a : List ℕ)
        → CloserIs counts (links_of outs.now halves.now a) (position_of positions.now) point v result }
{
    let start = dcel::out(outs, v);
    // an out edge by its reverse: the end that is looked at is the origin of that
    let first = dcel::rev(start);
    let mut back = first;
    loop {
        let w = dcel::origin(halves, back);
        let p = dcel::position(positions, w);
        let new_distance = p.distance_2(point);
        if new_distance < distance {
            return Some((w, new_distance));
        }
        let e = dcel::rev(back);
        back = dcel::prev(halves, e);
        if back == first {
            return None;
        }
    }
}

// From vertex 0 on to closer vertices, while an out edge leads to one. Each turn leaves fewer that are closer, so that the
// limit of 2E turns is never met, and is not counted here.
fn walk_to_nearest_neighbor(
    positions: &[i32],
    outs: &[u32],
    halves: &[u32],
    counts: Counts,
    point: Point,
) -> u32
    requires { NearReady counts positions.now outs.now halves.now point }
    ensures { (a : List ℕ)
        → result ≡ nearest counts (links_of outs.now halves.now a) (position_of positions.now) point }
{
    let start = dcel::position(positions, 0);
    let mut v = 0;
    let mut distance = start.distance_2(point);
    while let Some((w, d)) = first_closer(positions, outs, halves, counts, v, distance, point) {
        v = w;
        distance = d;
    }
    v
}

// The point is on the line of e: on to the half-edge before it in its triangle, or in that of its reverse.
fn on_line(halves: &[u32], e: u32) -> SearchState
    requires { LineReady halves.now e }
    ensures { (o a : List ℕ) → result ≡ on_line_of (links_of o halves.now a) e }
{
    if dcel::face(halves, e) == 0 {
        return SearchState::Onward(dcel::prev(halves, dcel::rev(e)));
    }
    SearchState::Onward(dcel::prev(halves, e))
}

// The point is strictly right of e2: on to its reverse, or to the half-edge that leaves the vertex across.
fn beyond(halves: &[u32], e2: u32) -> SearchState
    requires { There halves.now (rev e2) }
    ensures { (o a : List ℕ) → result ≡ beyond (links_of o halves.now a) e2 }
{
    let t = dcel::rev(e2);
    if dcel::face(halves, t) == 0 {
        return SearchState::Onward(t);
    }
    SearchState::Onward(dcel::prev(halves, t))
}

// The point is between two edges of a triangle; `area` is the doubled area of the third, e2, and the point.
fn across_edge(halves: &[u32], face: u32, e2: u32, area: i64) -> SearchState
    requires { There halves.now (rev e2) }
    ensures { (o a : List ℕ) (e1 : ℕ) → face ≡ (halves_of halves.now).face e1
        → result ≡ across_edge (links_of o halves.now a) e1 e2 area }
{
    if area > 0 {
        return SearchState::Found(PositionInTriangulation::OnFace(face));
    }
    if area < 0 {
        return beyond(halves, e2);
    }
    SearchState::Found(PositionInTriangulation::OnEdge(e2))
}

// The point is strictly left of e, which goes from `from` to `to`.
fn rotate_ccw(
    positions: &[i32],
    halves: &[u32],
    e: u32,
    from: Point,
    to: Point,
    point: Point,
) -> SearchState
    requires { EndsReady positions.now halves.now point e from to }
    ensures { (o a : List ℕ)
        → result ≡ rotate_ccw (links_of o halves.now a) (position_of positions.now) point e }
{
    let face = dcel::face(halves, e);
    if face == 0 {
        return SearchState::Found(PositionInTriangulation::OutsideOfConvexHull(e));
    }
    let prev = dcel::prev(halves, e);
    let v = dcel::origin(halves, prev);
    let far = dcel::position(positions, v);
    if math::side_query(from, far, point) >= 0 {
        return SearchState::Onward(dcel::rev(prev));
    }
    let e2 = dcel::next(halves, e);
    let area = math::side_query(to, far, point);
    across_edge(halves, face, e2, area)
}

// The point is strictly right of e.
fn rotate_cw(
    positions: &[i32],
    halves: &[u32],
    e: u32,
    from: Point,
    to: Point,
    point: Point,
) -> SearchState
    requires { EndsReady positions.now halves.now point e from to }
    ensures { (o a : List ℕ)
        → result ≡ rotate_cw (links_of o halves.now a) (position_of positions.now) point e }
{
    let e1 = dcel::rev(e);
    let face = dcel::face(halves, e1);
    if face == 0 {
        return SearchState::Found(PositionInTriangulation::OutsideOfConvexHull(e1));
    }
    let e2 = dcel::prev(halves, e1);
    let v = dcel::origin(halves, e2);
    let far = dcel::position(positions, v);
    if math::side_query(from, far, point) <= 0 {
        return SearchState::Onward(dcel::next(halves, e1));
    }
    let area = math::side_query(far, to, point);
    across_edge(halves, face, e2, area)
}

// Neither end of e is at the point.
fn by_side(
    positions: &[i32],
    halves: &[u32],
    e: u32,
    from: Point,
    to: Point,
    point: Point,
) -> SearchState
    requires { EndsReady positions.now halves.now point e from to }
    ensures { (o a : List ℕ)
        → result ≡ by_side (links_of o halves.now a) (position_of positions.now) point e }
{
    let area = math::side_query(from, to, point);
    if area > 0 {
        return rotate_ccw(positions, halves, e, from, to, point);
    }
    if area < 0 {
        return rotate_cw(positions, halves, e, from, to, point);
    }
    on_line(halves, e)
}

// One turn of the search, from e.
fn search_turn(positions: &[i32], halves: &[u32], e: u32, point: Point) -> SearchState
    requires { TurnReady positions.now halves.now point e }
    ensures { (o a : List ℕ)
        → result ≡ search_turn (links_of o halves.now a) (position_of positions.now) point e }
{
    let u = dcel::origin(halves, e);
    let from = dcel::position(positions, u);
    if math::is_position(from, point) {
        return SearchState::Found(PositionInTriangulation::OnVertex(u));
    }
    let w = dcel::to(halves, e);
    let to = dcel::position(positions, w);
    if math::is_position(to, point) {
        return SearchState::Found(PositionInTriangulation::OnVertex(w));
    }
    by_side(positions, halves, e, from, to, point)
}

// Turns from e, at most one for each half-edge of the mesh: after so many the walk has met one twice, and would never end.
fn search_from(
    positions: &[i32],
    halves: &[u32],
    counts: Counts,
    e: u32,
    point: Point,
) -> SearchState
    requires { TurnReady positions.now halves.now point e × (counts.edges < 2 ^ 31) }
    ensures { (o a : List ℕ)
        → result ≡ search_from counts (links_of o halves.now a) (position_of positions.now) point e }
{
    let mut current = e;
    for _ in 0..2 * counts.edges {
        match search_turn(positions, halves, current, point) {
            SearchState::Found(x) => {
                return SearchState::Found(x);
            }
            SearchState::Onward(d) => {
                current = d;
            }
        }
    }
    SearchState::Onward(current)
}

fn corners_of(positions: &[i32], halves: &[u32], a: u32) -> Corners
    requires { CornersIn positions.now halves.now a }
    ensures { CornersOf positions.now halves.now a result }
{
    let b = dcel::next(halves, a);
    let c = dcel::next(halves, b);
    let u = dcel::origin(halves, a);
    let v = dcel::origin(halves, b);
    let w = dcel::origin(halves, c);
    Corners {
        b,
        c,
        u,
        v,
        w,
        p: dcel::position(positions, u),
        q: dcel::position(positions, v),
        r: dcel::position(positions, w),
    }
}

// Whether the triangle of a holds the point, its edges and corners counted.
fn holds_at(positions: &[i32], halves: &[u32], a: u32, point: Point) -> bool
    requires { TriangleReady positions.now halves.now point a }
    ensures { (o s : List ℕ)
        → result ≡ holds_at (links_of o halves.now s) (position_of positions.now) point a }
{
    let k = corners_of(positions, halves, a);
    if math::side_query(k.p, k.q, point) < 0 {
        return false;
    }
    if math::side_query(k.q, k.r, point) < 0 {
        return false;
    }
    math::side_query(k.r, k.p, point) >= 0
}

// Where in the triangle of a, which holds it, the point is.
fn place_at(positions: &[i32], halves: &[u32], a: u32, point: Point) -> PositionInTriangulation
    requires { TriangleReady positions.now halves.now point a }
    ensures { (o s : List ℕ)
        → result ≡ place_at_of (links_of o halves.now s) (position_of positions.now) point a }
{
    let k = corners_of(positions, halves, a);
    if math::is_position(k.p, point) {
        return PositionInTriangulation::OnVertex(k.u);
    }
    if math::is_position(k.q, point) {
        return PositionInTriangulation::OnVertex(k.v);
    }
    if math::is_position(k.r, point) {
        return PositionInTriangulation::OnVertex(k.w);
    }
    if math::side_query(k.p, k.q, point) == 0 {
        return PositionInTriangulation::OnEdge(a);
    }
    if math::side_query(k.q, k.r, point) == 0 {
        return PositionInTriangulation::OnEdge(k.b);
    }
    if math::side_query(k.r, k.p, point) == 0 {
        return PositionInTriangulation::OnEdge(k.c);
    }
    PositionInTriangulation::OnFace(dcel::face(halves, a))
}

// The first inner face that holds the point.
fn first_holding(
    positions: &[i32],
    halves: &[u32],
    faces: &[u32],
    counts: Counts,
    point: Point,
) -> Option<u32>
    requires { ScanReady counts positions.now halves.now faces.now point }
    ensures { (o : List ℕ) → HoldingIs counts (links_of o halves.now faces.now) (position_of positions.now) point result }
{
    for f in 1..counts.faces {
        let a = dcel::adjacent(faces, f);
        if holds_at(positions, halves, a, point) {
            return Some(f);
        }
    }
    None
}

// The first boundary edge, from face 0's stored one on, that the point is strictly left of: there is one where no inner
// face holds the point.
fn first_left(positions: &[i32], halves: &[u32], faces: &[u32], counts: Counts, point: Point) -> u32
    requires { LeftReady counts positions.now halves.now faces.now point }
    ensures { (o : List ℕ)
        → result ≡ hull_edge (links_of o halves.now faces.now)
        (first_left counts (links_of o halves.now faces.now) (position_of positions.now) point) }
{
    let mut e = dcel::adjacent(faces, 0);
    let u = dcel::origin(halves, e);
    let mut from = dcel::position(positions, u);
    loop {
        let next = dcel::next(halves, e);
        let v = dcel::origin(halves, next);
        let to = dcel::position(positions, v);
        if math::side_query(from, to, point) > 0 {
            return e;
        }
        e = next;
        from = to;
    }
}

// The first triangle by number that holds the point, or the first boundary edge that the point is strictly left of.
fn scan(
    positions: &[i32],
    halves: &[u32],
    faces: &[u32],
    counts: Counts,
    point: Point,
) -> PositionInTriangulation
    requires { ScanReady counts positions.now halves.now faces.now point }
    ensures { (o : List ℕ)
        → result ≡ scan counts (links_of o halves.now faces.now) (position_of positions.now) point }
{
    match first_holding(positions, halves, faces, counts, point) {
        Some(f) => place_at(positions, halves, dcel::adjacent(faces, f), point),
        None => {
            let e = first_left(positions, halves, faces, counts, point);
            PositionInTriangulation::OutsideOfConvexHull(e)
        }
    }
}

// Where the point lies: by the search, or by the scan where the search has not ended.
pub fn locate_point(
    positions: &[i32],
    outs: &[u32],
    halves: &[u32],
    faces: &[u32],
    counts: Counts,
    point: Point,
) -> PositionInTriangulation
    requires { SearchReady counts positions.now outs.now halves.now faces.now point }
    ensures { result ≡ locate_point counts
        (links_of outs.now halves.now faces.now) (position_of positions.now) point }
{
    let v = walk_to_nearest_neighbor(positions, outs, halves, counts, point);
    let e = dcel::out(outs, v);
    match search_from(positions, halves, counts, e, point) {
        SearchState::Found(x) => x,
        SearchState::Onward(_) => scan(positions, halves, faces, counts, point),
    }
}
