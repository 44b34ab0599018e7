// Single steps by `fithmoul_step` (tests/reference/run_cases.py step): every refusal and fate, rows exactly long enough and one entry
// short, points at and beside an edge's ends and line and at the limit of the coordinates, pending lists that fill, long walks, unsettled
// seeds. A case agrees where the answer, the counts and every row over its whole length do: the ring's rows and pending are lent full of
// sevens.
use angle::Point2;
use fithmoul::results::StepResult;
use math::Point;
use mesh::Counts;
use test_mesh::{LENT, Mesh, Ring, WORDS, Words, lines};
use test_text::{Failure, Reader, demand};

fn step_on(
    mesh: &mut Mesh,
    ring: &mut Ring,
    pending: &mut Words,
    center: Point2,
    point: Point,
    z: i32,
) -> StepResult {
    let counts = mesh.counts;
    let r = fithmoul::fithmoul_step(
        counts.vertices,
        counts.edges,
        counts.faces,
        mesh.positions.as_mut_slice(),
        mesh.heights.as_mut_slice(),
        mesh.outs.as_mut_slice(),
        mesh.halves.as_mut_slice(),
        mesh.faces.as_mut_slice(),
        ring.nodes.as_mut_slice(),
        ring.freed.as_mut_slice(),
        ring.buckets.as_mut_slice(),
        pending.as_mut_slice(),
        center.x,
        center.y,
        point.x,
        point.y,
        z,
    );
    mesh.counts = Counts {
        vertices: r.vertices,
        edges: r.edges,
        faces: r.faces,
    };
    r
}

pub fn agrees(mut text: Reader) -> Result<(), Failure> {
    let lent = LENT.read(&mut text)?;
    let mut ring = Ring::read(&mut text)?;
    let mut pending = Words::sevens(lines::read_sevens(&mut text, b'q', WORDS)?);
    let center = lines::read_center(&mut text, b'x')?;
    let point = lines::read_point(&mut text)?;
    let z = lines::read_point_height(&mut text)?;
    let mut mesh = lent;
    let r = step_on(&mut mesh, &mut ring, &mut pending, center, point, z);
    let cleared = lines::cleared(&text);
    demand(ring.holds(cleared) && test_mesh::holds(pending.as_slice(), cleared))?;
    lines::demand_mesh(&mut text, &lent, &mesh)?;
    // Refusal, place, fate, vertex, faces and flips.
    text.line_of(
        b'r',
        &[
            u64::from(r.refusal),
            u64::from(r.place),
            r.answer.fate,
            r.answer.vertex,
            r.answer.faces,
            r.answer.flips,
        ],
    )
}
