// The three operations on a mesh whose vertices all lie on one line, each link as dcel_operations.rs stores it, on rows
// that the caller lends. Each requires only that what it touches is in the rows and that the numbers fit; `Ready` in
// specs/ gives that for a line of points.
#![tactic(auto, unfolding(crate::specs::OnLine::set_edge, crate::specs::OnLine::new_edge))]

ghost use Rattle.std.specs.Prelude.{◌≡◌, ◌+◌, ◌<◌, ◌^◌, eqb};
ghost use Rattle.dcel.specs.Rows.{halves_of, links_of, There};
ghost use Rattle.line.specs.Operations.{setup_initial_two_vertices};
ghost use Rattle.line_operations.specs.OnLine.{set_edge, new_edge, InitialReady, ExtendReady, LineExtended};
ghost use Rattle.line_operations.specs.OnLine.{HalvesReady, HalvesSplit, SplitReady, LineSplit};

use dcel::handles::HalfEdgeEntry;
use mesh::Counts;

// The halves of a new edge, both in the face f: n from the vertex v, with the next a and the prev p, and n + 1 from w, with b and q.
fn set_edge(halves: &mut [u32], n: u32, f: u32, v: u32, a: u32, p: u32, w: u32, b: u32, q: u32)
    requires { (n + 1 < 2 ^ 32) × There halves.old (n + 1) }
    ensures { halves_of halves.new ≡ set_edge (halves_of halves.old) n f v a p w b q }
{
    dcel::set_half_edge(
        halves,
        n,
        HalfEdgeEntry {
            next: a,
            prev: p,
            face: f,
            origin: v,
        },
    );
    dcel::set_half_edge(
        halves,
        n + 1,
        HalfEdgeEntry {
            next: b,
            prev: q,
            face: f,
            origin: w,
        },
    );
}

// Edge 0, from the first vertex to the second. Their positions are not touched here.
pub fn setup_initial_two_vertices(
    outs: &mut [u32],
    halves: &mut [u32],
    faces: &mut [u32],
    first: u32,
    second: u32,
)
    requires { InitialReady outs.old halves.old faces.old first second }
    ensures { links_of outs.new halves.new faces.new
        ≡ setup_initial_two_vertices (links_of outs.old halves.old faces.old) first second }
{
    set_edge(halves, 0, 0, first, 1, 1, second, 0, 0);
    dcel::store(outs, first, 0);
    dcel::store(outs, second, 1);
    dcel::store(faces, 0, 0);
}

// A new vertex beyond the vertex at an end of the line, whose number is counts.vertices. Its position is not touched here.
pub fn extend_line(outs: &mut [u32], halves: &mut [u32], counts: Counts, end: u32) -> Counts
    requires { ExtendReady outs.old halves.old counts end }
    ensures { LineExtended outs.old halves.old
        outs.new halves.new counts end result }
{
    let n = 2 * counts.edges;
    let v = counts.vertices;
    let o = dcel::out(outs, end);
    let i = dcel::rev(o);
    let f = dcel::face(halves, o);
    dcel::set_prev(halves, o, n);
    dcel::set_next(halves, i, n + 1);
    set_edge(halves, n, f, v, o, n + 1, end, n, i);
    dcel::store(outs, v, n);
    Counts {
        vertices: v + 1,
        edges: counts.edges + 1,
        ..counts
    }
}

// The new edge from v to `to`, where e led: en is the next of e, t the reverse of e and tp the prev of t. If en is t, e led to an
// end of the line.
fn new_edge(halves: &mut [u32], n: u32, f: u32, v: u32, to: u32, e: u32, t: u32, en: u32, tp: u32)
    requires { (n + 1 < 2 ^ 32) × There halves.old (n + 1) × There halves.old en × There halves.old tp }
    ensures { halves_of halves.new
        ≡ new_edge (eqb en t) (halves_of halves.old) n f v to e t en tp }
{
    if en == t {
        set_edge(halves, n, f, v, n + 1, e, to, t, n);
    } else {
        dcel::set_prev(halves, en, n);
        dcel::set_next(halves, tp, n + 1);
        set_edge(halves, n, f, v, en, e, to, t, tp);
    }
}

// The half-edge e leads to the new vertex v, and the new edge from there to where e led, which is the answer.
fn split_halves(halves: &mut [u32], n: u32, v: u32, e: u32) -> u32
    requires { HalvesReady halves.old n e }
    ensures { HalvesSplit halves.old halves.new n v e result }
{
    let t = dcel::rev(e);
    let x = dcel::half_edge(halves, e);
    let y = dcel::half_edge(halves, t);
    dcel::set_next(halves, e, n);
    dcel::set_prev(halves, t, n + 1);
    dcel::set_origin(halves, t, v);
    new_edge(halves, n, x.face, v, y.origin, e, t, x.next, y.prev);
    y.origin
}

// A new vertex on the edge of the half-edge e, both sides of which are outer. Its position is not touched here.
pub fn split_edge_when_all_vertices_on_line(
    outs: &mut [u32],
    halves: &mut [u32],
    counts: Counts,
    e: u32,
) -> Counts
    requires { SplitReady outs.old halves.old counts e }
    ensures { LineSplit outs.old halves.old
        outs.new halves.new counts e result }
{
    let n = 2 * counts.edges;
    let v = counts.vertices;
    let to = split_halves(halves, n, v, e);
    dcel::store(outs, to, n + 1);
    dcel::store(outs, v, n);
    Counts {
        vertices: v + 1,
        edges: counts.edges + 1,
        ..counts
    }
}
