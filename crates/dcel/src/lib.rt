// The rows of a half-edge mesh, which the caller lends: what stands there, and stores. A contract says what becomes of
// the rows seen as functions (specs/Rows.antt).
#![tactic(auto, unfolding(crate::specs::Rows::halves_of, crate::specs::Rows::row_of))]

ghost use Rattle.std.specs.Prelude.{◌≡◌, ℕ, ◌+◌, ◌*◌, ◌<◌, ◌≤◌, ◌^◌, List, length, replicate};
ghost use Rattle.sums.specs.Half.{rev};
ghost use Rattle.sums.specs.Put.{put};
ghost use Rattle.dcel.specs.Rows.{halves_of, row_of, position_of, There, set_next, set_prev, set_face, set_origin, set_link, set_cycle, EntryOf, set_half_edge};
ghost use Rattle.dcel.specs.Far.{far_in};

pub mod handles;

use handles::{Far, HalfEdgeEntry};
use math::Point;

// The other half of a half-edge's edge.
pub fn rev(e: u32) -> u32
    ensures { result ≡ rev e }
{
    e ^ 1
}

pub fn next(halves: &[u32], e: u32) -> u32
    requires { There halves.now e }
    ensures { result ≡ (halves_of halves.now).next e }
{
    halves[4 * e as usize]
}

pub fn prev(halves: &[u32], e: u32) -> u32
    requires { There halves.now e }
    ensures { result ≡ (halves_of halves.now).prev e }
{
    halves[4 * e as usize + 1]
}

pub fn face(halves: &[u32], e: u32) -> u32
    requires { There halves.now e }
    ensures { result ≡ (halves_of halves.now).face e }
{
    halves[4 * e as usize + 2]
}

pub fn origin(halves: &[u32], e: u32) -> u32
    requires { There halves.now e }
    ensures { result ≡ (halves_of halves.now).origin e }
{
    halves[4 * e as usize + 3]
}

pub fn half_edge(halves: &[u32], e: u32) -> HalfEdgeEntry
    requires { There halves.now e }
    ensures { EntryOf (halves_of halves.now) e result }
{
    let i = 4 * e as usize;
    HalfEdgeEntry {
        next: halves[i],
        prev: halves[i + 1],
        face: halves[i + 2],
        origin: halves[i + 3],
    }
}

// Where a half-edge leads to.
pub fn to(halves: &[u32], e: u32) -> u32
    requires { There halves.now (rev e) }
    ensures { result ≡ (halves_of halves.now).origin (rev e) }
{
    origin(halves, rev(e))
}

// A vertex's stored out edge.
pub fn out(outs: &[u32], v: u32) -> u32
    requires { v < length outs.now }
    ensures { result ≡ row_of outs.now v }
{
    outs[v as usize]
}

// A face's stored edge.
pub fn adjacent(faces: &[u32], f: u32) -> u32
    requires { f < length faces.now }
    ensures { result ≡ row_of faces.now f }
{
    faces[f as usize]
}

pub fn position(positions: &[i32], v: u32) -> Point
    requires { 2 * v + 1 < length positions.now }
    ensures { result ≡ position_of positions.now v }
{
    let i = 2 * v as usize;
    Point {
        x: positions[i],
        y: positions[i + 1],
    }
}

// The far vertex over a half-edge.
pub fn far(halves: &[u32], e: u32) -> Far
    requires { There halves.now e × There halves.now ((halves_of halves.now).prev e) }
    ensures { result ≡ far_in ((halves_of halves.now).face e)
        ((halves_of halves.now).origin ((halves_of halves.now).prev e)) }
{
    if face(halves, e) == 0 {
        Far::Outer
    } else {
        Far::Vertex(origin(halves, prev(halves, e)))
    }
}

pub fn set_next(halves: &mut [u32], e: u32, v: u32)
    requires { There halves.old e }
    ensures { halves_of halves.new ≡ set_next (halves_of halves.old) e v }
{
    halves[4 * e as usize] = v;
}

pub fn set_prev(halves: &mut [u32], e: u32, v: u32)
    requires { There halves.old e }
    ensures { halves_of halves.new ≡ set_prev (halves_of halves.old) e v }
{
    halves[4 * e as usize + 1] = v;
}

pub fn set_face(halves: &mut [u32], e: u32, v: u32)
    requires { There halves.old e }
    ensures { halves_of halves.new ≡ set_face (halves_of halves.old) e v }
{
    halves[4 * e as usize + 2] = v;
}

pub fn set_origin(halves: &mut [u32], e: u32, v: u32)
    requires { There halves.old e }
    ensures { halves_of halves.new ≡ set_origin (halves_of halves.old) e v }
{
    halves[4 * e as usize + 3] = v;
}

pub fn set_half_edge(halves: &mut [u32], e: u32, entry: HalfEdgeEntry)
    requires { There halves.old e }
    ensures { halves_of halves.new ≡ set_half_edge (halves_of halves.old) e entry }
{
    set_next(halves, e, entry.next);
    set_prev(halves, e, entry.prev);
    set_face(halves, e, entry.face);
    set_origin(halves, e, entry.origin);
}

// A store to a row of out edges or of faces.
pub fn store(row: &mut [u32], at: u32, v: u32)
    requires { at < length row.old }
    ensures { row_of row.new ≡ put (row_of row.old) at v }
{
    row[at as usize] = v;
}

// A row of zeros, over its whole length.
pub fn clear(row: &mut [u32])
    ensures { row.new ≡ replicate (length row.old) 0 }
{
    row.fill(0);
}

// The position of a vertex, a new one's above all: `append_unconnected_vertex` of the Rust.
pub fn set_position(positions: &mut [i32], v: u32, point: Point)
    requires { 2 * v + 1 < length positions.old }
    ensures { position_of positions.new ≡ put (position_of positions.old) v point }
{
    let i = 2 * v as usize;
    positions[i] = point.x;
    positions[i + 1] = point.y;
}

// The half-edge b follows a.
pub fn set_link(halves: &mut [u32], a: u32, b: u32)
    requires { There halves.old a × There halves.old b }
    ensures { halves_of halves.new ≡ set_link (halves_of halves.old) a b }
{
    set_next(halves, a, b);
    set_prev(halves, b, a);
}

// The half-edges a, b and c are one cycle.
pub fn set_cycle(halves: &mut [u32], a: u32, b: u32, c: u32)
    requires { There halves.old a × There halves.old b × There halves.old c }
    ensures { halves_of halves.new ≡ set_cycle (halves_of halves.old) a b c }
{
    set_link(halves, a, b);
    set_link(halves, b, c);
    set_link(halves, c, a);
}
