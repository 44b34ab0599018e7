// A point goes into a mesh. `insert_into_face` and `insert_on_edge` of triangulation_ext.rs put a new vertex into a triangle
// or on an edge and legalize the edges around it (`legalize_vertex`); `insert_at` does what the point's place asks for. What
// is left is `insert_into_face`, `insert_in_edge` and `mesh_at` of the crate `skipped`, specs/Insert.antt; its laws are in
// specs/InsertLaws.antt there.
// `legalize_vertex` of the Rust collects the edges in a list. Here they are read off the triangles before the operation
// changes the links: `Stars` in `skipped` has it that they are the same, in the same order.
#![tactic(auto)]

ghost use Rattle.std.specs.Prelude.{[], ◌∷◌, ◌≡◌, length};
ghost use Rattle.corner.specs.CornerRows.{extended_of};
ghost use Rattle.dcel.specs.Rows.{links_of, position_of};
ghost use Rattle.insertion.specs.Operations.{split_edge, split_half_edge, with_inner_vertex};
ghost use Rattle.location.specs.Scan.{locate_point};
ghost use Rattle.mesh.specs.Operations.{with_vertex};
ghost use Rattle.skipped.specs.Insert.{legalize_each, legalize_vertex, unflipped, insert_into_face, insert_in_edge, insert_point};
ghost use Rattle.insert.specs.InsertRows.{OneReady, TwoReady, InnerEdgeReady, BoundaryEdgeReady, FaceReady, OnEdgeReady, InsertReady, InsertLeaves};
ghost use Rattle.insert.specs.InsertRows.{PointReady, NearPointReady, inserting_of};

use corner::Extension;
use location::PositionInTriangulation;
use math::Point;
use mesh::Counts;

// Where a point was put in, and what has become of the mesh: the faces and flips are this insertion's.
#[derive(Clone, Copy)]
pub struct Inserted {
    pub position: PositionInTriangulation,
    pub added: Extension,
}

// `legalize_edge` of the half-edge e. After a refused flip nothing is changed any more.
fn legalize_one(
    positions: &[i32],
    outs: &mut [u32],
    halves: &mut [u32],
    faces: &mut [u32],
    pending: &mut [u32],
    added: Extension,
    e: u32,
) -> Extension
    requires { OneReady positions.now outs.old halves.old faces.old pending.old added e }
    ensures { extended_of outs.new halves.new faces.new result
        ≡ legalize_each (length pending.old) (position_of positions.now)
        (extended_of outs.old halves.old faces.old added) (e ∷ []) }
{
    if added.full {
        return added;
    }
    let done = legalize::legalize_edge(
        positions,
        outs,
        halves,
        faces,
        pending,
        added.counts,
        e,
        added.flips,
    );
    Extension {
        flips: done.flips,
        full: done.full,
        ..added
    }
}

// Of one and then of another.
fn legalize_two(
    positions: &[i32],
    outs: &mut [u32],
    halves: &mut [u32],
    faces: &mut [u32],
    pending: &mut [u32],
    added: Extension,
    first: u32,
    second: u32,
) -> Extension
    requires { TwoReady positions.now outs.old halves.old faces.old pending.old added first second }
    ensures { extended_of outs.new halves.new faces.new result
        ≡ legalize_each (length pending.old) (position_of positions.now)
        (extended_of outs.old halves.old faces.old added) (first ∷ second ∷ []) }
{
    let one = legalize_one(positions, outs, halves, faces, pending, added, first);
    legalize_one(positions, outs, halves, faces, pending, one, second)
}

// The position is strictly inside the face f: three faces in its place, and the edges of the face legalized.
pub fn insert_into_face(
    positions: &[i32],
    outs: &mut [u32],
    halves: &mut [u32],
    faces: &mut [u32],
    pending: &mut [u32],
    counts: Counts,
    f: u32,
) -> Extension
    requires { FaceReady counts positions.now outs.old halves.old faces.old pending.old f }
    ensures { extended_of outs.new halves.new faces.new result
        ≡ insert_into_face (length pending.old) (position_of positions.now) counts
        (links_of outs.old halves.old faces.old) f }
{
    let e0 = dcel::adjacent(faces, f);
    let e1 = dcel::next(halves, e0);
    let e2 = dcel::next(halves, e1);
    let after = insertion_operations::insert_into_triangle(outs, halves, faces, counts, f);
    let added = Extension {
        counts: after,
        faces: 2,
        flips: 0,
        full: false,
    };
    let two = legalize_two(positions, outs, halves, faces, pending, added, e1, e2);
    legalize_one(positions, outs, halves, faces, pending, two, e0)
}

// The position is on the edge of e, both sides of which are inner: two faces in place of each, and their other edges legalized.
fn insert_on_inner_edge(
    positions: &[i32],
    outs: &mut [u32],
    halves: &mut [u32],
    faces: &mut [u32],
    pending: &mut [u32],
    counts: Counts,
    e: u32,
) -> Extension
    requires { InnerEdgeReady counts positions.now outs.old halves.old faces.old pending.old e }
    ensures { extended_of outs.new halves.new faces.new result
        ≡ legalize_vertex (length pending.old) (position_of positions.now)
        (unflipped (with_inner_vertex counts)
        (split_edge (links_of outs.old halves.old faces.old) counts e) 2) counts.vertices }
{
    let t = dcel::rev(e);
    let left = dcel::half_edge(halves, e);
    let right = dcel::half_edge(halves, t);
    let after = insertion_operations::split_edge(outs, halves, faces, counts, e);
    let added = Extension {
        counts: after,
        faces: 2,
        flips: 0,
        full: false,
    };
    let two = legalize_two(
        positions, outs, halves, faces, pending, added, right.next, right.prev,
    );
    legalize_two(
        positions, outs, halves, faces, pending, two, left.next, left.prev,
    )
}

// The position is on the boundary edge of the inner half-edge e: two faces in place of its one, and their other edges legalized.
fn insert_on_boundary_edge(
    positions: &[i32],
    outs: &mut [u32],
    halves: &mut [u32],
    faces: &mut [u32],
    pending: &mut [u32],
    counts: Counts,
    e: u32,
) -> Extension
    requires { BoundaryEdgeReady counts positions.now outs.old halves.old faces.old pending.old e }
    ensures { extended_of outs.new halves.new faces.new result
        ≡ legalize_vertex (length pending.old) (position_of positions.now)
        (unflipped (with_vertex counts)
        (split_half_edge (links_of outs.old halves.old faces.old) counts e) 1) counts.vertices }
{
    let left = dcel::half_edge(halves, e);
    let after = insertion_operations::split_half_edge(outs, halves, faces, counts, e);
    let added = Extension {
        counts: after,
        faces: 1,
        flips: 0,
        full: false,
    };
    legalize_two(
        positions, outs, halves, faces, pending, added, left.next, left.prev,
    )
}

// The position is strictly between the ends of the edge of e. On the boundary only the inner side is split.
pub fn insert_on_edge(
    positions: &[i32],
    outs: &mut [u32],
    halves: &mut [u32],
    faces: &mut [u32],
    pending: &mut [u32],
    counts: Counts,
    e: u32,
) -> Extension
    requires { OnEdgeReady counts positions.now outs.old halves.old faces.old pending.old e }
    ensures { extended_of outs.new halves.new faces.new result
        ≡ insert_in_edge (length pending.old) (position_of positions.now) counts
        (links_of outs.old halves.old faces.old) e }
{
    let t = dcel::rev(e);
    let left = dcel::face(halves, e);
    let right = dcel::face(halves, t);
    if left == 0 {
        return insert_on_boundary_edge(positions, outs, halves, faces, pending, counts, t);
    }
    if right == 0 {
        return insert_on_boundary_edge(positions, outs, halves, faces, pending, counts, e);
    }
    insert_on_inner_edge(positions, outs, halves, faces, pending, counts, e)
}

// A point goes in at its place: a new vertex with its position, unless a vertex is there already.
pub fn insert_at(
    positions: &mut [i32],
    outs: &mut [u32],
    halves: &mut [u32],
    faces: &mut [u32],
    pending: &mut [u32],
    counts: Counts,
    point: Point,
    position: PositionInTriangulation,
) -> Extension
    requires { InsertReady counts positions.old outs.old halves.old faces.old pending.old point position }
    ensures { InsertLeaves counts positions.old outs.old halves.old faces.old
        pending.old point position
        positions.new outs.new halves.new faces.new result }
{
    match position {
        PositionInTriangulation::OnVertex(_) => Extension {
            counts,
            faces: 0,
            flips: 0,
            full: false,
        },
        PositionInTriangulation::OnFace(f) => {
            dcel::set_position(positions, counts.vertices, point);
            insert_into_face(positions, outs, halves, faces, pending, counts, f)
        }
        PositionInTriangulation::OnEdge(e) => {
            dcel::set_position(positions, counts.vertices, point);
            insert_on_edge(positions, outs, halves, faces, pending, counts, e)
        }
        PositionInTriangulation::OutsideOfConvexHull(e) => {
            dcel::set_position(positions, counts.vertices, point);
            insert_outside::insert_outside(
                positions, outs, halves, faces, pending, counts, point, e,
            )
        }
    }
}

// A point goes in at the place where it was found.
fn insert_located(
    positions: &mut [i32],
    outs: &mut [u32],
    halves: &mut [u32],
    faces: &mut [u32],
    pending: &mut [u32],
    counts: Counts,
    point: Point,
    position: PositionInTriangulation,
) -> Inserted
    requires { PointReady counts positions.old outs.old halves.old faces.old pending.old point
        × (position ≡ locate_point counts (links_of outs.old halves.old faces.old) (position_of positions.old) point) }
    ensures { inserting_of positions.new outs.new halves.new faces.new result
        ≡ insert_point (length pending.old) counts
        (links_of outs.old halves.old faces.old) (position_of positions.old) point }
{
    let added = insert_at(
        positions, outs, halves, faces, pending, counts, point, position,
    );
    Inserted { position, added }
}

// A point goes in wherever it lies: `insert_with_hint_option_impl` with the hint at vertex 0.
pub fn insert_point(
    positions: &mut [i32],
    outs: &mut [u32],
    halves: &mut [u32],
    faces: &mut [u32],
    pending: &mut [u32],
    counts: Counts,
    point: Point,
) -> Inserted
    requires { PointReady counts positions.old outs.old halves.old faces.old pending.old point }
    ensures { inserting_of positions.new outs.new halves.new faces.new result
        ≡ insert_point (length pending.old) counts
        (links_of outs.old halves.old faces.old) (position_of positions.old) point }
{
    let position = search::locate_point(positions, outs, halves, faces, counts, point);
    insert_located(
        positions, outs, halves, faces, pending, counts, point, position,
    )
}

// The same, searched for from edge u where the mesh is known to be one to walk on.
pub fn insert_near(
    positions: &mut [i32],
    outs: &mut [u32],
    halves: &mut [u32],
    faces: &mut [u32],
    pending: &mut [u32],
    counts: Counts,
    point: Point,
    known: bool,
    u: u32,
) -> Inserted
    requires { NearPointReady counts positions.old outs.old halves.old faces.old pending.old point known u }
    ensures { inserting_of positions.new outs.new halves.new faces.new result
        ≡ insert_point (length pending.old) counts
        (links_of outs.old halves.old faces.old) (position_of positions.old) point }
{
    let position = search_near::locate_near(
        positions, outs, halves, faces, counts, point, known, u,
    );
    insert_located(
        positions, outs, halves, faces, pending, counts, point, position,
    )
}
