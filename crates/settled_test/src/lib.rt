// Whether no edge of a mesh breaks the circle rule, and whether none at a vertex does. The half-edges that start at the vertex are its
// spokes: once about it, from its out edge, the edge of each is tested, and what the test of one has read is carried on to the next. What
// is answered is `Settled` of the crate mesh and `UnbrokenAt` of specs/Star.antt.
// A row that a function is lent and does not read stands for the contract alone.
#![tactic(auto)]

ghost use Rattle.std.specs.Prelude.{◌≡◌, ◌<◌, T};
ghost use Rattle.circle_test.specs.GoodRows.{GoodRows};
ghost use Rattle.dcel.specs.Rows.{links_of, position_of};
ghost use Rattle.math.specs.Determinant.{InRange};
ghost use Rattle.mesh.specs.Circle.{Settled};
ghost use Rattle.settled_test.specs.Spoke.{FirstSpoke, broken_at};
ghost use Rattle.settled_test.specs.Star.{UnbrokenAt};

use math::Point;
use mesh::Counts;

// Where a vertex has more spokes the answer is no, so that a test is short; nothing depends on an answer of no.
const MOST_SPOKES: u32 = 64;

// A spoke with the position of its end and the face of its reverse; where that is an inner face, `before` is where the spoke before ends.
#[derive(Clone, Copy)]
pub struct Spoke {
    pub e: u32,
    pub here: Point,
    pub before: Point,
    pub face: u32,
}

// The out edge of vertex v.
fn first_spoke(
    positions: &[i32],
    outs: &[u32],
    halves: &[u32],
    faces: &[u32],
    counts: Counts,
    v: u32,
) -> Spoke
    requires { GoodRows counts positions.now outs.now halves.now faces.now × (v < counts.vertices) }
    ensures { FirstSpoke positions.now outs.now halves.now v result }
{
    let e = dcel::out(outs, v);
    let half = dcel::half_edge(halves, dcel::rev(e));
    let w = dcel::origin(halves, half.prev);
    Spoke {
        e,
        here: dcel::position(positions, half.origin),
        before: dcel::position(positions, w),
        face: half.face,
    }
}

// Whether the edge of a spoke breaks the rule: it starts at `center`, its face is `face`, and the next spoke ends at `next`.
fn is_broken(center: Point, at: Spoke, face: u32, next: Point) -> bool
    requires { InRange center × InRange at.here × InRange next × InRange at.before }
    ensures { result ≡ broken_at center at face next }
{
    face != 0 && at.face != 0 && math::contained_in_circumference(center, at.here, next, at.before)
}

// Whether no edge that vertex v is an end of breaks the rule.
pub fn is_unbroken_at(
    positions: &[i32],
    outs: &[u32],
    halves: &[u32],
    faces: &[u32],
    counts: Counts,
    v: u32,
) -> bool
    requires { GoodRows counts positions.now outs.now halves.now faces.now × (v < counts.vertices) }
    ensures { T result → UnbrokenAt counts
        (links_of outs.now halves.now faces.now) (position_of positions.now) v }
{
    let center = dcel::position(positions, v);
    let mut at = first_spoke(positions, outs, halves, faces, counts, v);
    let start = at.e;
    for _ in 0..MOST_SPOKES {
        let half = dcel::half_edge(halves, at.e);
        let w = dcel::origin(halves, half.prev);
        let next = dcel::position(positions, w);
        if is_broken(center, at, half.face, next) {
            return false;
        }
        let d = dcel::rev(half.prev);
        at = Spoke {
            e: d,
            here: next,
            before: at.here,
            face: half.face,
        };
        if d == start {
            return true;
        }
    }
    false
}

// Whether no edge of the mesh breaks the rule, block after block.
pub fn is_settled(
    positions: &[i32],
    outs: &[u32],
    halves: &[u32],
    faces: &[u32],
    counts: Counts,
) -> bool
    requires { GoodRows counts positions.now outs.now halves.now faces.now }
    ensures { T result → Settled counts
        (links_of outs.now halves.now faces.now) (position_of positions.now) }
{
    let mut u = 0;
    // no `for`: u goes on by a block
    while u < counts.edges {
        let v = circle_scan::unbroken(positions, halves, u, counts.edges);
        if v <= u {
            return false;
        }
        u = v;
    }
    true
}
