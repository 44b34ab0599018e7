// Quotes that `fithmoul_commit` is given (tests/reference/quote_cases.py commit): every refusal and fate, change counts up to their end,
// quotes that are stale in each number, quotes asked before a step, a commit, a finish or a run, and pending lists that fill. A case agrees
// where the answer, the counts, the change count and every row over its whole length do: the ring's rows and pending are lent full of
// sevens.
use angle::Point2;
use fithmoul::results::CommitResult;
use math::Point;
use mesh::Counts;
use quote::Quote;
use test_mesh::{LENT, Mesh, Ring, WORDS, Words, lines};
use test_text::{Failure, Reader, demand};

fn commit_on(
    mesh: &mut Mesh,
    changes: u32,
    ring: &mut Ring,
    pending: &mut Words,
    center: Point2,
    point: Point,
    z: i32,
    quote: Quote,
) -> CommitResult {
    let counts = mesh.counts;
    let r = fithmoul::fithmoul_commit(
        counts.vertices,
        counts.edges,
        counts.faces,
        changes,
        mesh.positions.as_mut_slice(),
        mesh.heights.as_mut_slice(),
        mesh.outs.as_mut_slice(),
        mesh.halves.as_mut_slice(),
        mesh.faces.as_mut_slice(),
        ring.nodes.as_mut_slice(),
        ring.freed.as_mut_slice(),
        ring.buckets.as_mut_slice(),
        pending.as_mut_slice(),
        center.x,
        center.y,
        point.x,
        point.y,
        z,
        quote,
    );
    mesh.counts = Counts {
        vertices: r.vertices,
        edges: r.edges,
        faces: r.faces,
    };
    r
}

pub fn agrees(mut text: Reader) -> Result<(), Failure> {
    let lent = LENT.read(&mut text)?;
    let changes = lines::read_changes(&mut text)?;
    let mut ring = Ring::read(&mut text)?;
    let mut pending = Words::sevens(lines::read_sevens(&mut text, b'q', WORDS)?);
    let center = lines::read_center(&mut text, b'x')?;
    let point = lines::read_point(&mut text)?;
    let z = lines::read_point_height(&mut text)?;
    let quote = lines::read_quote(&mut text, b'g')?;
    let mut mesh = lent;
    let r = commit_on(
        &mut mesh,
        changes,
        &mut ring,
        &mut pending,
        center,
        point,
        z,
        quote,
    );
    let cleared = lines::cleared(&text);
    demand(ring.holds(cleared) && test_mesh::holds(pending.as_slice(), cleared))?;
    lines::demand_mesh(&mut text, &lent, &mesh)?;
    // Refusal, place, fate, vertex, faces, flips and the change count.
    text.line_of(
        b'r',
        &[
            u64::from(r.refusal),
            u64::from(r.place),
            r.answer.fate,
            r.answer.vertex,
            r.answer.faces,
            r.answer.flips,
            u64::from(r.changes),
        ],
    )
}
