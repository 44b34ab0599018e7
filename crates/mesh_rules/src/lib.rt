// The mesh rules of 01, decided in time proportional to the mesh and with no memory of what was met but counts: each
// sweep looks at every half-edge, face or vertex once. What each function answers is an equation with a definition of
// `specs/Holds.antt`, and `mesh_rules` with `rules` of the crate mesh.
// A function that is lent the row of half-edges alone says so whatever the other rows hold: o are the out edges and a the faces.
#![tactic(auto)]

ghost use Rattle.std.specs.Prelude.{◌≡◌, true, List, ℕ, ◌+◌, ◌*◌, ◌<◌, ◌≤◌, ◌^◌, length};
ghost use Rattle.dcel.specs.Rows.{There, halves_of, row_of, links_of};
ghost use Rattle.mesh.specs.Mesh.{turn};
ghost use Rattle.mesh.specs.Rules.{every, rules};
ghost use Rattle.sums.specs.Bounded.{all_below};
ghost use Rattle.sums.specs.Half.{rev};
ghost use Rattle.sums.specs.Iterate.{Inverse, period_below};
ghost use Rattle.mesh_rules.specs.Holds.{Computes, HalvesThere, HalvesHold, RowsThere, use_tests, link_tests, has_side, half_edge_holds, vertex_holds, face_holds, inner_face_holds, outer_holds, faces_whole, vertices_hold, counts_hold};

use dcel::handles::HalfEdgeEntry;
use mesh::Counts;

// The links of a half-edge name what is in use.
fn in_use(w: HalfEdgeEntry, counts: Counts) -> bool
    requires { counts.edges < 2 ^ 31 }
    ensures { result ≡ every (use_tests counts w) }
{
    let ends = 2 * counts.edges;
    w.next < ends && w.prev < ends && w.face < counts.faces && w.origin < counts.vertices
}

// The links of half-edge e, which holds w, agree with those of the next one, with the next one of the previous one, and with its reverse.
fn is_linked(
    e: u32,
    w: HalfEdgeEntry,
    after: HalfEdgeEntry,
    back: u32,
    other: HalfEdgeEntry,
) -> bool
    ensures { result ≡ every (link_tests e w after back other) }
{
    after.prev == e && back == e && after.face == w.face && after.origin == other.origin
}

// An edge with these faces on its sides has an inner one.
fn has_side(f: u32, g: u32) -> bool
    ensures { result ≡ has_side f g }
{
    f > 0 || g > 0
}

fn half_edge_holds(halves: &[u32], counts: Counts, e: u32) -> bool
    requires { HalvesThere counts halves.now × (e < 2 * counts.edges) }
    ensures { (o a : List ℕ) → result ≡ half_edge_holds counts (links_of o halves.now a) e }
{
    let w = dcel::half_edge(halves, e);
    if !in_use(w, counts) {
        return false;
    }
    let after = dcel::half_edge(halves, w.next);
    let back = dcel::next(halves, w.prev);
    let other = dcel::half_edge(halves, dcel::rev(e));
    is_linked(e, w, after, back, other) && has_side(w.face, other.face)
}

fn half_edges_hold(halves: &[u32], counts: Counts) -> bool
    requires { HalvesThere counts halves.now }
    ensures { (o a : List ℕ) → result ≡ all_below (2 * counts.edges) (half_edge_holds counts (links_of o halves.now a)) }
{
    (0..2 * counts.edges).all(|e| half_edge_holds(halves, counts, e))
}

// Face f is a cycle of three through its stored edge.
#[tactic(auto, unfolding(crate::specs::Holds::face_holds, dcel::specs::Rows::links_of))]
fn face_holds(halves: &[u32], faces: &[u32], counts: Counts, f: u32) -> bool
    requires { HalvesHold counts halves.now × (f < length faces.now) }
    ensures { (o : List ℕ) → result ≡ face_holds counts (links_of o halves.now faces.now) f }
{
    let a = dcel::adjacent(faces, f);
    if a >= 2 * counts.edges {
        return false;
    }
    let w = dcel::half_edge(halves, a);
    w.face == f && w.next != a && dcel::next(halves, dcel::next(halves, w.next)) == a
}

fn inner_faces_hold(halves: &[u32], faces: &[u32], counts: Counts) -> bool
    requires { HalvesHold counts halves.now × ((0 < counts.faces) × (counts.faces ≤ length faces.now)) }
    ensures { (o : List ℕ)
        → result ≡ all_below counts.faces
        (inner_face_holds counts (links_of o halves.now faces.now)) }
{
    (1..counts.faces).all(|f| face_holds(halves, faces, counts, f))
}

// The stored edge of face 0 is on a cycle of more than two.
#[tactic(auto, unfolding(crate::specs::Holds::outer_holds, dcel::specs::Rows::links_of))]
fn outer_holds(halves: &[u32], faces: &[u32], counts: Counts) -> bool
    requires { HalvesHold counts halves.now × (0 < length faces.now) }
    ensures { (o : List ℕ) → result ≡ outer_holds counts (links_of o halves.now faces.now) }
{
    let a = dcel::adjacent(faces, 0);
    if a >= 2 * counts.edges {
        return false;
    }
    let w = dcel::half_edge(halves, a);
    w.face == 0 && w.next != a && dcel::next(halves, w.next) != a
}

// How many half-edges a walk by `step` meets, from a on. It comes back, since `step` permutes the half-edges, which are below `ends`.
fn walk_length<F: Fn(u32) -> u32>(step: F, ends: u32, a: u32) -> u32
    requires callable { (e : ℕ) → e < ends → F.pre step e }
    requires permutes { (f : ℕ → ℕ) × (g : ℕ → ℕ) × Inverse ends f g × Computes (F.post step) ends f }
    requires starts { a < ends }
    ensures { (f g : ℕ → ℕ) → Inverse ends f g → Computes (F.post step) ends f → result ≡ period_below ends f a }
{
    let mut e = step(a);
    let mut k = 1;
    while e != a {
        e = step(e);
        k += 1;
    }
    k
}

// How many half-edges the cycle of a has. The walk comes back, since next and prev undo each other.
fn cycle_length(halves: &[u32], counts: Counts, a: u32) -> u32
    requires { HalvesHold counts halves.now × (a < 2 * counts.edges) }
    ensures { (o s : List ℕ) → result ≡ period_below (2 * counts.edges) (links_of o halves.now s).next a }
{
    walk_length(|e| dcel::next(halves, e), 2 * counts.edges, a)
}

// The half-edge after e about its origin: the reverse of prev.
fn turn(halves: &[u32], e: u32) -> u32
    requires { There halves.now e }
    ensures { result ≡ rev ((halves_of halves.now).prev e) }
{
    dcel::rev(dcel::prev(halves, e))
}

// How many half-edges turning about a vertex meets, from a on.
fn orbit_length(halves: &[u32], counts: Counts, a: u32) -> u32
    requires { HalvesHold counts halves.now × (a < 2 * counts.edges) }
    ensures { (o s : List ℕ) → result ≡ period_below (2 * counts.edges) (turn (links_of o halves.now s)) a }
{
    walk_length(|e| turn(halves, e), 2 * counts.edges, a)
}

// No half-edge is left over by the faces: the cycle of face 0, and three for each further face.
fn faces_whole(halves: &[u32], faces: &[u32], counts: Counts) -> bool
    requires { HalvesHold counts halves.now × ((0 < length faces.now) × (row_of faces.now 0 < 2 * counts.edges)) }
    ensures { (o : List ℕ) → result ≡ faces_whole counts (links_of o halves.now faces.now) }
{
    let boundary = cycle_length(halves, counts, dcel::adjacent(faces, 0));
    boundary as u64 + 3 * counts.faces as u64 == 2 * counts.edges as u64 + 3
}

// The out edge of vertex v starts there.
#[tactic(auto, unfolding(crate::specs::Holds::vertex_holds, dcel::specs::Rows::links_of))]
fn vertex_holds(outs: &[u32], halves: &[u32], counts: Counts, v: u32) -> bool
    requires { HalvesThere counts halves.now × (v < length outs.now) }
    ensures { (a : List ℕ) → result ≡ vertex_holds counts (links_of outs.now halves.now a) v }
{
    let e = dcel::out(outs, v);
    e < 2 * counts.edges && dcel::origin(halves, e) == v
}

// Every vertex has its out edge, and no half-edge is left over by the turns about the vertices.
fn vertices_hold(outs: &[u32], halves: &[u32], counts: Counts) -> bool
    requires { HalvesHold counts halves.now × (counts.vertices ≤ length outs.now) }
    ensures { (a : List ℕ) → result ≡ vertices_hold counts (links_of outs.now halves.now a) }
{
    let mut total = 0;
    for v in 0..counts.vertices {
        if !vertex_holds(outs, halves, counts, v) {
            return false;
        }
        total += orbit_length(halves, counts, dcel::out(outs, v)) as u64;
    }
    total == 2 * counts.edges as u64
}

// The counts agree with each other, and the rows for so many vertices hold so many edges and faces. Otherwise a rule
// fails, and no row is read.
#[tactic(auto, unfolding(crate::specs::Holds::counts_hold))]
fn counts_hold(counts: Counts) -> bool
    ensures { result ≡ counts_hold counts }
{
    counts.faces > 0
        && counts.vertices as u64 + counts.faces as u64 == counts.edges as u64 + 2
        && counts.edges as u64 <= 3 * counts.vertices as u64
        && counts.faces as u64 <= 2 * counts.vertices as u64
}

// All mesh rules.
pub fn mesh_rules(outs: &[u32], halves: &[u32], faces: &[u32], counts: Counts) -> bool
    requires { RowsThere counts outs.now halves.now faces.now }
    ensures { result ≡ rules counts (links_of outs.now halves.now faces.now) }
{
    if !counts_hold(counts) {
        return false;
    }
    if !half_edges_hold(halves, counts) {
        return false;
    }
    if !outer_holds(halves, faces, counts) {
        return false;
    }
    if !faces_whole(halves, faces, counts) {
        return false;
    }
    if !inner_faces_hold(halves, faces, counts) {
        return false;
    }
    vertices_hold(outs, halves, counts)
}
