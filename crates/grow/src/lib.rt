// One point of the growing seed, on lent rows: `insert_with_hint_option_impl` of triangulation_ext.rs with no vertex, with
// one, with a line of them, or with a mesh. What is left is `grow_on` of crate line, specs/Grow.antt, which has the
// definitions; its laws are in specs/GrowLaws.antt there.
// Until there is a triangle no edge is flipped. So what is done then takes no pending entries, and its contracts hold
// whatever their number, `room`.
#![tactic(auto)]

ghost use Rattle.std.specs.Prelude.{List, ◌≡◌, ℕ, ◌<◌, length};
ghost use Rattle.dcel.specs.Rows.{links_of, position_of};
ghost use Rattle.insert.specs.InsertRows.{PointReady};
ghost use Rattle.line.specs.Grow.{insert_first_vertex, insert_second_vertex, insert_at_line_place, insert_when_all_vertices_on_line};
ghost use Rattle.line.specs.Grow.{grow_point, grow_in_mesh, grow_on};
ghost use Rattle.grow.specs.GrowRows.{growing_at, growing_of, grown_by, unflipped_by, inserted_by};
ghost use Rattle.grow.specs.GrowRows.{RowsRoom, PlaceReady, OnLineReady, FlatReady, GrowReady};

use corner::Extension;
use line::PositionWhenAllVerticesOnLine;
use location::PositionInTriangulation;
use math::Point;
use mesh::Counts;

// What has become of a point, its fate and its vertex, and of the mesh: the faces and flips are this insertion's.
// A fate is the number that a row of answers has for it, as `grown_by` of specs/GrowRows.antt and crate line's specs/Grow.antt say it.
#[derive(Clone, Copy)]
pub struct Grown {
    pub fate: u32,
    pub vertex: u32,
    pub added: Extension,
}

fn grown_by(fate: u32, vertex: u32, added: Extension) -> Grown
    ensures { result ≡ grown_by fate vertex added }
{
    Grown {
        fate,
        vertex,
        added,
    }
}

// With no new face and no flip.
fn unflipped_by(fate: u32, vertex: u32, counts: Counts) -> Grown
    ensures { result ≡ unflipped_by fate vertex counts }
{
    grown_by(
        fate,
        vertex,
        Extension {
            counts,
            faces: 0,
            flips: 0,
            full: false,
        },
    )
}

// No vertex yet: `append_unconnected_vertex`.
fn insert_first_vertex(
    positions: &mut [i32],
    outs: &mut [u32],
    faces: &mut [u32],
    point: Point,
) -> Grown
    requires { (1 < length positions.old) × (0 < length outs.old) × (0 < length faces.old) }
    ensures { (h : List ℕ)
        → growing_of positions.new outs.new h faces.new result
        ≡ insert_first_vertex (links_of outs.old h faces.old) (position_of positions.old) point }
{
    dcel::set_position(positions, 0, point);
    dcel::store(outs, 0, 0);
    dcel::store(faces, 0, 0);
    unflipped_by(
        1,
        0,
        Counts {
            vertices: 1,
            edges: 0,
            faces: 1,
        },
    )
}

// One vertex: the point is there, or makes a line of two.
fn insert_second_vertex(
    positions: &mut [i32],
    outs: &mut [u32],
    halves: &mut [u32],
    faces: &mut [u32],
    point: Point,
) -> Grown
    requires { RowsRoom 2 positions.old outs.old halves.old faces.old }
    ensures { growing_of positions.new outs.new halves.new faces.new result
        ≡ insert_second_vertex (links_of outs.old halves.old faces.old)
        (position_of positions.old) point }
{
    let first = dcel::position(positions, 0);
    if math::is_position(first, point) {
        return unflipped_by(
            9,
            0,
            Counts {
                vertices: 1,
                edges: 0,
                faces: 1,
            },
        );
    }
    dcel::set_position(positions, 1, point);
    line_operations::setup_initial_two_vertices(outs, halves, faces, 0, 1);
    unflipped_by(
        1,
        1,
        Counts {
            vertices: 2,
            edges: 1,
            faces: 1,
        },
    )
}

// `insert_when_all_vertices_on_line`, at the place that was found.
fn insert_at_line_place(
    positions: &mut [i32],
    outs: &mut [u32],
    halves: &mut [u32],
    faces: &mut [u32],
    counts: Counts,
    point: Point,
    place: PositionWhenAllVerticesOnLine,
) -> Grown
    requires { PlaceReady counts positions.old outs.old halves.old faces.old point place }
    ensures { (room : ℕ)
        → growing_of positions.new outs.new halves.new faces.new result
        ≡ insert_at_line_place room counts (links_of outs.old halves.old faces.old)
        (position_of positions.old) point place }
{
    let v = counts.vertices;
    match place {
        PositionWhenAllVerticesOnLine::OnVertex(w) => unflipped_by(9, w, counts),
        PositionWhenAllVerticesOnLine::OnEdge(e) => {
            dcel::set_position(positions, v, point);
            let after = line_operations::split_edge_when_all_vertices_on_line(
                outs, halves, counts, e,
            );
            unflipped_by(1, v, after)
        }
        PositionWhenAllVerticesOnLine::ExtendingLine(w) => {
            dcel::set_position(positions, v, point);
            let after = line_operations::extend_line(outs, halves, counts, w);
            unflipped_by(1, v, after)
        }
        PositionWhenAllVerticesOnLine::NotOnLine(e) => {
            dcel::set_position(positions, v, point);
            let added = line_fan::insert_off_line(positions, outs, halves, faces, counts, point, e);
            grown_by(1, v, added)
        }
    }
}

// A line of two vertices or more.
fn insert_when_all_vertices_on_line(
    positions: &mut [i32],
    outs: &mut [u32],
    halves: &mut [u32],
    faces: &mut [u32],
    counts: Counts,
    point: Point,
) -> Grown
    requires { OnLineReady counts positions.old outs.old halves.old faces.old point }
    ensures { (room : ℕ)
        → growing_of positions.new outs.new halves.new faces.new result
        ≡ insert_when_all_vertices_on_line room counts (links_of outs.old halves.old faces.old)
        (position_of positions.old) point }
{
    let place = line_search::locate_when_all_vertices_on_line(
        positions, outs, halves, counts, point,
    );
    insert_at_line_place(positions, outs, halves, faces, counts, point, place)
}

// There is no triangle: `match self.num_vertices()`.
fn grow_point(
    positions: &mut [i32],
    outs: &mut [u32],
    halves: &mut [u32],
    faces: &mut [u32],
    counts: Counts,
    point: Point,
) -> Grown
    requires { FlatReady counts positions.old outs.old halves.old faces.old point }
    ensures { (room : ℕ)
        → growing_of positions.new outs.new halves.new faces.new result
        ≡ grow_point room (growing_at counts (links_of outs.old halves.old faces.old)
        (position_of positions.old)) point }
{
    match counts.vertices {
        0 => insert_first_vertex(positions, outs, faces, point),
        1 => insert_second_vertex(positions, outs, halves, faces, point),
        _ => insert_when_all_vertices_on_line(positions, outs, halves, faces, counts, point),
    }
}

// A point that was put in at a position of a mesh: fate 9 on a vertex that is there, else 1.
fn inserted_by(counts: Counts, position: PositionInTriangulation, added: Extension) -> Grown
    ensures { result ≡ inserted_by counts position added }
{
    match position {
        PositionInTriangulation::OnVertex(w) => grown_by(9, w, added),
        PositionInTriangulation::OnEdge(_)
        | PositionInTriangulation::OnFace(_)
        | PositionInTriangulation::OutsideOfConvexHull(_) => { grown_by(1, counts.vertices, added) }
    }
}

// There is a triangle.
fn grow_in_mesh(
    positions: &mut [i32],
    outs: &mut [u32],
    halves: &mut [u32],
    faces: &mut [u32],
    pending: &mut [u32],
    counts: Counts,
    point: Point,
) -> Grown
    requires { PointReady counts positions.old outs.old halves.old faces.old pending.old point }
    ensures { growing_of positions.new outs.new halves.new faces.new result
        ≡ grow_in_mesh (length pending.old)
        (growing_at counts (links_of outs.old halves.old faces.old)
        (position_of positions.old)) point }
{
    let done = insert::insert_point(positions, outs, halves, faces, pending, counts, point);
    inserted_by(counts, done.position, done.added)
}

// The next point goes in, wherever it lies and however far the seed has grown.
pub fn grow_on(
    positions: &mut [i32],
    outs: &mut [u32],
    halves: &mut [u32],
    faces: &mut [u32],
    pending: &mut [u32],
    counts: Counts,
    point: Point,
) -> Grown
    requires { GrowReady counts positions.old outs.old halves.old faces.old pending.old point }
    ensures { growing_of positions.new outs.new halves.new faces.new result
        ≡ grow_on (length pending.old)
        (growing_at counts (links_of outs.old halves.old faces.old)
        (position_of positions.old)) point }
{
    if counts.faces > 1 {
        return grow_in_mesh(positions, outs, halves, faces, pending, counts, point);
    }
    grow_point(positions, outs, halves, faces, counts, point)
}
