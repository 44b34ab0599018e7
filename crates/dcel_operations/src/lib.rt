// The operations that change links, each link as dcel_operations.rs stores it, on rows that the caller lends. Each
// requires only that what it touches is in the rows and that the numbers fit; `Ready` in specs/ gives that for a mesh
// that keeps the rules.
#![tactic(auto)]

ghost use Rattle.std.specs.Prelude.{◌≡◌, ℕ, ◌+◌, ◌*◌, ◌<◌, ◌≤◌, ◌^◌, List};
ghost use Rattle.dcel.specs.Rows.{halves_of, links_of, There};
ghost use Rattle.dcel_operations.specs.Flip.{flip_links, flip_marks, FlipReady};
ghost use Rattle.dcel_operations.specs.Face.{single_links, single_marks, SingleReady, SingleFace, new_edges, new_links, NewReady, NewFace};
ghost use Rattle.mesh.specs.Operations.{flip_cw};

use dcel::handles::HalfEdgeEntry;
use mesh::Counts;

// The counts after an operation, and the half-edge of the outer face that it added.
#[derive(Clone, Copy)]
pub struct NewEdge {
    pub counts: Counts,
    pub edge: u32,
}

// The links of the flip: the triangles e, en, ep and t, tn, tp become e, tp, en and t, ep, tn.
#[tactic(auto, unfolding(crate::specs::Flip::flip_links))]
fn flip_links(halves: &mut [u32], e: u32, en: u32, ep: u32, t: u32, tn: u32, tp: u32)
    requires { There halves.old e × There halves.old en × There halves.old ep
        × There halves.old t × There halves.old tn × There halves.old tp }
    ensures { halves_of halves.new ≡ flip_links (halves_of halves.old) e en ep t tn tp }
{
    dcel::set_cycle(halves, e, tp, en);
    dcel::set_cycle(halves, t, ep, tn);
}

// The origins of the edge's two halves, and the faces of the two half-edges that change sides.
#[tactic(auto, unfolding(crate::specs::Flip::flip_marks))]
fn flip_marks(halves: &mut [u32], e: u32, ep: u32, t: u32, tp: u32, ef: u32, tf: u32)
    requires { There halves.old e × There halves.old ep × There halves.old t × There halves.old tp }
    ensures { halves_of halves.new ≡ flip_marks (halves_of halves.old) e ep t tp ef tf }
{
    let eo = dcel::origin(halves, ep);
    let to = dcel::origin(halves, tp);
    dcel::set_origin(halves, e, eo);
    dcel::set_origin(halves, t, to);
    dcel::set_face(halves, tp, ef);
    dcel::set_face(halves, ep, tf);
}

// Turns the edge u between two triangles into the other diagonal of their quadrilateral.
pub fn flip_cw(outs: &mut [u32], halves: &mut [u32], faces: &mut [u32], u: u32)
    requires { FlipReady outs.old halves.old faces.old u }
    ensures { links_of outs.new halves.new faces.new
        ≡ flip_cw (links_of outs.old halves.old faces.old) u }
{
    let e = 2 * u;
    let t = e + 1;
    let ee = dcel::half_edge(halves, e);
    let te = dcel::half_edge(halves, t);
    flip_marks(halves, e, ee.prev, t, te.prev, ee.face, te.face);
    flip_links(halves, e, ee.next, ee.prev, t, te.next, te.prev);
    dcel::store(outs, ee.origin, te.next);
    dcel::store(outs, te.origin, ee.next);
    dcel::store(faces, ee.face, e);
    dcel::store(faces, te.face, t);
}

// The links of the new triangle e, n, i and of the boundary p, o, q.
#[tactic(auto, unfolding(crate::specs::Face::single_links))]
fn single_links(halves: &mut [u32], p: u32, e: u32, n: u32, q: u32, i: u32, o: u32)
    requires { There halves.old p × There halves.old e × There halves.old n
        × There halves.old q × There halves.old i × There halves.old o }
    ensures { halves_of halves.new ≡ single_links (halves_of halves.old) p e n q i o }
{
    dcel::set_link(halves, i, e);
    dcel::set_link(halves, n, i);
    dcel::set_link(halves, o, q);
    dcel::set_link(halves, p, o);
}

// The faces of the new triangle and of o, and the origins of the new half-edges.
#[tactic(auto, unfolding(crate::specs::Face::single_marks))]
fn single_marks(halves: &mut [u32], e: u32, n: u32, i: u32, o: u32, g: u32, io: u32, oo: u32)
    requires { There halves.old e × There halves.old n × There halves.old i × There halves.old o }
    ensures { halves_of halves.new ≡ single_marks (halves_of halves.old) e n i o g io oo }
{
    dcel::set_face(halves, i, g);
    dcel::set_face(halves, o, 0);
    dcel::set_face(halves, e, g);
    dcel::set_face(halves, n, g);
    dcel::set_origin(halves, i, io);
    dcel::set_origin(halves, o, oo);
}

// The triangle of e and the next half-edge of the outer face, closed by a new edge.
pub fn create_single_face_between_edge_and_next(
    halves: &mut [u32],
    faces: &mut [u32],
    counts: Counts,
    e: u32,
) -> NewEdge
    requires { SingleReady halves.old faces.old counts e }
    ensures { SingleFace halves.old faces.old halves.new faces.new counts e result }
{
    let i = 2 * counts.edges;
    let o = i + 1;
    let entry = dcel::half_edge(halves, e);
    let q = dcel::next(halves, entry.next);
    let io = dcel::to(halves, entry.next);
    single_marks(halves, e, entry.next, i, o, counts.faces, io, entry.origin);
    single_links(halves, entry.prev, e, entry.next, q, i, o);
    dcel::store(faces, 0, o);
    dcel::store(faces, counts.faces, i);
    NewEdge {
        counts: Counts {
            edges: counts.edges + 1,
            faces: counts.faces + 1,
            ..counts
        },
        edge: o,
    }
}

// The new half-edges new_next = a and new_prev = a + 2 with their reverses; `entry` is what stands at e.
#[tactic(auto, unfolding(crate::specs::Face::new_edges))]
fn new_edges(halves: &mut [u32], a: u32, e: u32, g: u32, v: u32, to: u32, entry: HalfEdgeEntry)
    requires { (a + 3 < 2 ^ 32) × There halves.old (a + 3) }
    ensures { halves_of halves.new ≡ new_edges (halves_of halves.old) a e g v to entry }
{
    let b = a + 2;
    dcel::set_half_edge(
        halves,
        a,
        HalfEdgeEntry {
            next: b,
            prev: e,
            face: g,
            origin: to,
        },
    );
    dcel::set_half_edge(
        halves,
        a + 1,
        HalfEdgeEntry {
            prev: b + 1,
            origin: v,
            ..entry
        },
    );
    dcel::set_half_edge(
        halves,
        b,
        HalfEdgeEntry {
            next: e,
            prev: a,
            face: g,
            origin: v,
        },
    );
    dcel::set_half_edge(
        halves,
        b + 1,
        HalfEdgeEntry {
            next: a + 1,
            ..entry
        },
    );
}

// e comes to the new face g, and p and n lead to the new half-edges of the outer face.
#[tactic(auto, unfolding(crate::specs::Face::new_links))]
fn new_links(halves: &mut [u32], a: u32, p: u32, e: u32, n: u32, g: u32)
    requires { (a + 3 < 2 ^ 32) × There halves.old p × There halves.old e × There halves.old n }
    ensures { halves_of halves.new ≡ new_links (halves_of halves.old) a p e n g }
{
    let b = a + 2;
    dcel::set_next(halves, e, a);
    dcel::set_prev(halves, e, b);
    dcel::set_face(halves, e, g);
    dcel::set_prev(halves, n, a + 1);
    dcel::set_next(halves, p, b + 1);
}

// The triangle of the outer half-edge e and a new vertex, whose number is counts.vertices. Its position is not touched here.
pub fn create_new_face_adjacent_to_edge(
    outs: &mut [u32],
    halves: &mut [u32],
    faces: &mut [u32],
    counts: Counts,
    e: u32,
) -> Counts
    requires { NewReady outs.old halves.old faces.old counts e }
    ensures { NewFace outs.old halves.old faces.old
        outs.new halves.new faces.new counts e result }
{
    let a = 2 * counts.edges;
    let b = a + 2;
    let entry = dcel::half_edge(halves, e);
    let to = dcel::to(halves, e);
    new_edges(halves, a, e, counts.faces, counts.vertices, to, entry);
    new_links(halves, a, entry.prev, e, entry.next, counts.faces);
    dcel::store(outs, counts.vertices, b);
    dcel::store(faces, counts.faces, e);
    dcel::store(faces, entry.face, b + 1);
    Counts {
        vertices: counts.vertices + 1,
        edges: counts.edges + 2,
        faces: counts.faces + 1,
    }
}
