// What a point would do, before it counts (02, Change 5): the decision part of a step, as a quote, on a mesh that is only read. The edge at
// the point's angle is found by one look round the boundary and not in a ring, so no row is written before all checks are made: a commit
// that is refused for its quote leaves the ring's rows as they were lent. What is answered is `ask_of` of the crate `ask`.
#![tactic(auto)]

ghost use Rattle.std.specs.Prelude.{List, ◌≡◌, ℕ};
ghost use Rattle.angle.specs.Angle.{IsAngle, turns};
ghost use Rattle.dcel.specs.MeshRows.{mesh_rows, links_in, places_in};
ghost use Rattle.decide.specs.Decide.{decided};
ghost use Rattle.decide.specs.SweepRows.{Decides};
ghost use Rattle.heights.specs.Heights.{surface_rows};
ghost use Rattle.hull.specs.Boundary.{AngledBoundary};
ghost use Rattle.locate.specs.Start.{AcceptedStart};
ghost use Rattle.segment.specs.Arc.{holds};
ghost use Rattle.start.specs.Start.{point_row};
ghost use Rattle.ask.specs.Ask.{faces_of, quote_from, quote_of, point_checked, ask_checked, asked_by};
ghost use Rattle.ask.specs.AskRows.{edge_holding, decided_of, ToQuote};

use angle::Point2;
use decide::{Decision, Fate};
use math::Point;
use mesh::Counts;
use mesh_check::Refusal;
use quote::Quote;
use segment::Segment;

// Whether the segment from one angle to another holds a third. Equal angles have none.
fn holds(from: f64, to: f64, angle: f64) -> bool
    requires { IsAngle from × IsAngle to × IsAngle angle }
    ensures { result ≡ holds (turns angle) (turns from) (turns to) }
{
    !angle::equal(from, to) && Segment::new(from, to).contains_angle(angle)
}

// The first edge whose segment holds an angle, of the boundary of `size` half-edges from `start` on.
fn located_edge(
    positions: &[i32],
    halves: &[u32],
    start: u32,
    size: u32,
    center: Point2,
    angle: f64,
) -> u32
    requires { AngledBoundary positions.now halves.now center.x center.y start × IsAngle angle }
    ensures { result ≡ edge_holding positions.now halves.now center.x center.y start size (turns angle) }
{
    let mut e = start;
    let mut from = hull::angle_at(positions, halves, start, center);
    for _ in 0..size {
        let next = dcel::next(halves, e);
        let to = hull::angle_at(positions, halves, next, center);
        if holds(from, to, angle) {
            return e;
        }
        e = next;
        from = to;
    }
    e
}

// The decision about a point on a mesh whose start ring is strict: a step's.
fn decide_now(
    positions: &[i32],
    halves: &[u32],
    faces: &[u32],
    counts: Counts,
    center: Point2,
    point: Point,
) -> Decision
    requires { ToQuote counts positions.now halves.now faces.now center point }
    ensures { (o : List ℕ)
        → AcceptedStart (point_row point) counts (mesh_rows positions.now o halves.now faces.now) center
        → (let m = mesh_rows positions.now o halves.now faces.now in
        Decides counts (links_in m) (places_in m) center.x center.y point
        (decided center.x center.y counts (links_in m) (places_in m) point) result) }
{
    let Some(angle) = angle::vertex_angle(point.x, point.y, center) else {
        return decide::leave(Fate::AtCenter);
    };
    let start = dcel::adjacent(faces, 0);
    let size = hull::convex_hull_size(counts);
    let e = located_edge(positions, halves, start, size, center, angle);
    let from = hull::angle_at(positions, halves, e, center);
    let to = hull::angle_at(positions, halves, dcel::next(halves, e), center);
    decide::decide_at(
        positions,
        halves,
        e,
        from,
        to,
        size,
        0,
        counts.vertices,
        point,
        angle,
        center,
    )
}

// The faces of a step's answer.
#[tactic(auto, unfolding(ask::specs::Ask::faces_of, decide::specs::Decide::if_added))]
fn faces_of(decision: Decision) -> u64
    ensures { result ≡ faces_of (decided_of decision) }
{
    match decision.fate {
        Fate::Added(_) => u64::from(decision.left) + 1 + u64::from(decision.right),
        _ => 0,
    }
}

// A decision as a quote.
fn quoted(changes: u32, point: Point, z: i32, decision: Decision) -> Quote
    ensures { result ≡ quote_from changes point z (decided_of decision) }
{
    Quote {
        changes,
        x: point.x,
        y: point.y,
        z,
        fate: decide::fate_number(decision.fate),
        faces: faces_of(decision),
    }
}

// What asking gives about a point, on a mesh that rows 1 to 7 accept with it.
pub fn quote_now(
    changes: u32,
    counts: Counts,
    positions: &[i32],
    halves: &[u32],
    faces: &[u32],
    center: Point2,
    point: Point,
    z: i32,
) -> Quote
    requires { ToQuote counts positions.now halves.now faces.now center point }
    ensures { (o : List ℕ)
        → AcceptedStart (point_row point) counts (mesh_rows positions.now o halves.now faces.now) center
        → result ≡ quote_of changes counts (mesh_rows positions.now o halves.now faces.now) center point z }
{
    let decision = decide_now(positions, halves, faces, counts, center, point);
    quoted(changes, point, z, decision)
}

// Rows 1, 2, 3, 10, 4, 5, 6 and 7 of a call that is given one point. `short`: a row that is not the mesh's is too short.
pub fn check_point(
    short: bool,
    counts: Counts,
    positions: &[i32],
    heights: &[i32],
    outs: &[u32],
    halves: &[u32],
    faces: &[u32],
    center: Point2,
    point: Point,
    z: i32,
) -> Result<(), Refusal>
    ensures { result ≡ point_checked short counts (surface_rows
        (mesh_rows positions.now outs.now halves.now faces.now) heights.now)
        center point z }
{
    let row = [point.x, point.y];
    let height = [z];
    heights::check_heights(
        &row, &height, short, false, counts, positions, heights, outs, halves, faces,
    )?;
    locate::check_start(&row, short, counts, positions, outs, halves, faces, center)
}

// All rows of the table for asking. The rows of the ring are given by their lengths, which are those for one vertex more.
fn check_ask(
    changes: u32,
    counts: Counts,
    positions: &[i32],
    heights: &[i32],
    outs: &[u32],
    halves: &[u32],
    faces: &[u32],
    nodes: usize,
    freed: usize,
    buckets: usize,
    center: Point2,
    point: Point,
    z: i32,
) -> Result<(), Refusal>
    ensures { result ≡ ask_checked changes counts (surface_rows
        (mesh_rows positions.now outs.now halves.now faces.now) heights.now)
        nodes freed buckets center point z }
{
    let short = locate::ring_rows_short((counts.vertices as usize) + 1, nodes, freed, buckets);
    check_point(
        short, counts, positions, heights, outs, halves, faces, center, point, z,
    )?;
    quote::check_changes(changes)
}

// The call but for the ring's rows, which are given by their lengths: the caller clears them where a quote is given.
pub fn ask(
    changes: u32,
    counts: Counts,
    positions: &[i32],
    heights: &[i32],
    outs: &[u32],
    halves: &[u32],
    faces: &[u32],
    nodes: usize,
    freed: usize,
    buckets: usize,
    center: Point2,
    point: Point,
    z: i32,
) -> Result<Quote, Refusal>
    ensures { let s = surface_rows
        (mesh_rows positions.now outs.now halves.now faces.now) heights.now in
        result ≡ asked_by (ask_checked changes counts s nodes freed buckets center point z) (quote_of changes counts s.mesh center point z) }
{
    check_ask(
        changes, counts, positions, heights, outs, halves, faces, nodes, freed, buckets, center,
        point, z,
    )?;
    Ok(quote_now(changes, counts, positions, halves, faces, center, point, z))
}
