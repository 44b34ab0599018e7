// Lists of bare points by `fithmoul_bulk_load` (tests/reference/bulk_load_cases.py): every refusal but 1, lines of points and the first
// point off them, seeds that grow until the sweep may start, pending lists that fill while the seed grows and after it, sweeps of many
// kinds. A case agrees where the answer, the counts and every row over its whole length do: the mesh's rows are lent with anything in
// them, the ring's rows, pending and the answers full of sevens.
use fithmoul::results::BulkLoadResult;
use mesh::Counts;
use test_mesh::{Coordinates, LENT, LONGS, Longs, Mesh, Ring, WORDS, Words, lines};
use test_text::{Failure, Reader, demand};

// Of the mesh only the rows are lent: the call is given no counts.
fn bulk_load_on(
    mesh: &mut Mesh,
    ring: &mut Ring,
    pending: &mut Words,
    answers: &mut Longs,
    points: &Coordinates,
    point_heights: &Coordinates,
) -> BulkLoadResult {
    let r = fithmoul::fithmoul_bulk_load(
        mesh.positions.as_mut_slice(),
        mesh.heights.as_mut_slice(),
        mesh.outs.as_mut_slice(),
        mesh.halves.as_mut_slice(),
        mesh.faces.as_mut_slice(),
        ring.nodes.as_mut_slice(),
        ring.freed.as_mut_slice(),
        ring.buckets.as_mut_slice(),
        pending.as_mut_slice(),
        answers.as_mut_slice(),
        points.as_slice(),
        point_heights.as_slice(),
    );
    mesh.counts = Counts {
        vertices: r.vertices,
        edges: r.edges,
        faces: r.faces,
    };
    r
}

// All numbers of the answer must stand in the line `r`, in order.
fn demand_result(text: &mut Reader, r: BulkLoadResult) -> Result<(), Failure> {
    text.line_of(
        b'r',
        &[
            u64::from(r.refusal),
            u64::from(r.place),
            u64::from(r.vertices),
            u64::from(r.edges),
            u64::from(r.faces),
            u64::from(r.changes),
            u64::from(r.line),
            u64::from(r.faces_added),
            r.convex_flips,
            r.closing_flips,
        ],
    )
}

// A case begins without a mesh.
fn demand_bare(mut text: Reader) -> Result<(), Failure> {
    text.line_of(b'm', &[0u32; 3])
}

pub fn agrees(mut text: Reader) -> Result<(), Failure> {
    demand_bare(text)?;
    let lent = LENT.read(&mut text)?;
    let mut ring = Ring::read(&mut text)?;
    let mut pending = Words::sevens(lines::read_sevens(&mut text, b'q', WORDS)?);
    let mut answers = Longs::sevens(lines::read_sevens(&mut text, b'w', LONGS)?);
    let points = lines::read_counted_points(&mut text)?;
    let point_heights = test_mesh::read_heights(&mut text, b'y')?;
    let mut mesh = lent;
    let r = bulk_load_on(
        &mut mesh,
        &mut ring,
        &mut pending,
        &mut answers,
        &points,
        &point_heights,
    );
    let cleared = lines::cleared(&text);
    demand(ring.holds(cleared) && test_mesh::holds(pending.as_slice(), cleared))?;
    lines::demand_mesh(&mut text, &lent, &mesh)?;
    lines::demand_answers(&mut text, answers.as_slice())?;
    demand_result(&mut text, r)
}
