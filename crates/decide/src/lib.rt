// What a step decides about a point before it changes anything (bulk_load.rs, `single_bulk_insertion_step` up to its
// first change, and the tests of its two loops): the located edge, the fate, and how many boundary edges the two walks
// of crate `walks` cover. Nothing is written. What is decided is `decided` of specs/Decide.antt.
#![tactic(auto)]

ghost use Rattle.std.specs.Prelude.{List, ◌≡◌, ℕ};
ghost use Rattle.dcel.specs.Rows.{links_of, position_of};
ghost use Rattle.mesh.specs.declared.Counts.{Counts};
ghost use Rattle.decide.specs.Decide.{fate_number, fate_vertex, decided};
ghost use Rattle.decide.specs.SweepRows.{SweepRows, ToDecide, Decides};
ghost use Rattle.decide.specs.Located.{LocatedRows, ToDecideAt, DecidesAt, LeavesOut};

use angle::Point2;
use math::Point;
use mesh::Counts;
use ring::Side;
use ring_rows::{Hull, Node};
use walks::BoundaryVertex;

// 01's fates: 1 added, with the new vertex; 2 dropped; 3 skipped, not left of the located edge; 4 skipped, no sound
// ring; 5 skipped, at the centre.
#[derive(Clone, Copy)]
pub enum Fate {
    Added(u32),
    Dropped,
    NotLeft,
    Unsound,
    AtCenter,
}

// 01's number of a fate.
impl From<Fate> for u64 {
    ghost from_gives = { λ fate n. n ≡ fate_number fate };

    #[tactic(auto, unfolding(crate::specs::Decide::fate_number))]
    fn from(fate: Fate) -> u64 {
        match fate {
            Fate::Added(_) => 1,
            Fate::Dropped => 2,
            Fate::NotLeft => 3,
            Fate::Unsound => 4,
            Fate::AtCenter => 5,
        }
    }
}

// The same as a function: its clause is what the crates above cite.
pub fn fate_number(fate: Fate) -> u64
    ensures { result ≡ fate_number fate }
{
    u64::from(fate)
}

// The new vertex; 0 unless the fate is 1.
#[tactic(auto, unfolding(crate::specs::Decide::fate_vertex))]
pub fn fate_vertex(fate: Fate) -> u64
    ensures { result ≡ fate_vertex fate }
{
    match fate {
        Fate::Added(v) => u64::from(v),
        _ => 0,
    }
}

// A fate, and for an added point the located edge, how many edges the walks cover before and after it, and the angles
// of the point and of the covered chain's two ends. `node` is the node of the located edge, where an insert starts to
// look; nothing depends on it.
#[derive(Clone, Copy)]
pub struct Decision {
    pub fate: Fate,
    pub edge: u32,
    pub left: u32,
    pub right: u32,
    pub angle: f64,
    pub startangle: f64,
    pub endangle: f64,
    pub node: u32,
}

// A point that is not added. The fields are written out here and nowhere else: a constant to copy them from would list them as well.
pub fn leave(fate: Fate) -> Decision
    ensures { LeavesOut fate result }
{
    Decision {
        fate,
        edge: 0,
        left: 0,
        right: 0,
        angle: 0.0,
        startangle: 0.0,
        endangle: 0.0,
        node: 0,
    }
}

// Fates 2, 3, 4 and 1 of a point with an angle, of which e is the located edge; `fromangle` and `toangle` are the angles of its ends.
// `size` is the number of the ring's nodes, `node` the edge's own where it is known, `next` the next vertex.
pub fn decide_at(
    positions: &[i32],
    halves: &[u32],
    e: u32,
    fromangle: f64,
    toangle: f64,
    size: u32,
    node: u32,
    next: u32,
    point: Point,
    angle: f64,
    center: Point2,
) -> Decision
    requires { ToDecideAt positions.now halves.now center.x center.y e fromangle toangle size next point angle }
    ensures { (C : Counts) (o a : List ℕ)
        → LocatedRows C positions.now o halves.now a center.x center.y e size next point angle
        → DecidesAt C positions.now o halves.now a center.x center.y e point angle result }
{
    let from = walks::origin_position(positions, halves, e);
    let to = walks::origin_position(positions, halves, dcel::rev(e));
    if math::is_position(point, from) || math::is_position(point, to) {
        return leave(Fate::Dropped);
    }
    if math::side_query(from, to, point) <= 0 {
        return leave(Fate::NotLeft);
    }
    let first = BoundaryVertex {
        position: from,
        angle: fromangle,
    };
    let last = BoundaryVertex {
        position: to,
        angle: toangle,
    };
    let left = walks::walk(
        Side::Left,
        positions,
        halves,
        e,
        first,
        point,
        angle,
        center,
    );
    let right = walks::walk(
        Side::Right,
        positions,
        halves,
        e,
        last,
        point,
        angle,
        center,
    );
    let start = left.vertex;
    let end = right.vertex;
    // The located edge has a node: it holds the angle.
    let nodes = left.nodes + 1 + right.nodes;
    if !ring_insert::is_fit(start.angle, angle, end.angle, nodes, size) {
        return leave(Fate::Unsound);
    }
    Decision {
        fate: Fate::Added(next),
        edge: e,
        left: left.count,
        right: right.count,
        angle,
        startangle: start.angle,
        endangle: end.angle,
        node,
    }
}

// The whole decision about a point. A point at the centre has no angle: fate 5.
pub fn decide(
    positions: &[i32],
    halves: &[u32],
    nodes: &[Node],
    freed: &[u32],
    buckets: &[u32],
    hull: Hull,
    counts: Counts,
    center: Point2,
    point: Point,
) -> Decision
    requires { ToDecide counts positions.now halves.now nodes.now freed.now buckets.now hull center.x center.y point }
    ensures { (o a : List ℕ)
        → SweepRows counts positions.now o halves.now a
        nodes.now freed.now buckets.now hull center.x center.y
        → Decides counts (links_of o halves.now a) (position_of positions.now) center.x center.y point
        (decided center.x center.y counts (links_of o halves.now a) (position_of positions.now) point) result }
{
    let Some(angle) = angle::vertex_angle(point.x, point.y, center) else {
        return leave(Fate::AtCenter);
    };
    let found = ring_rows::find(nodes, freed, buckets, hull, angle);
    // The ring has the angles of the edge's ends.
    let node = ring_rows::load(nodes, found);
    let right = ring_rows::load(nodes, node.right);
    decide_at(
        positions,
        halves,
        node.edge,
        node.angle,
        right.angle,
        hull.size(),
        found,
        counts.vertices,
        point,
        angle,
        center,
    )
}
