// Quotes by `fithmoul_ask` (tests/reference/quote_cases.py ask): every refusal and fate, change counts up to their end, rows exactly long
// enough and one entry short, and asks between steps, commits, finishes and runs. The mesh cannot be changed: its rows are lent to be
// read. The ring's rows are lent full of sevens: a refused call must leave them, an accepted one must leave zeros.
use angle::Point2;
use fithmoul::results::AskResult;
use math::Point;
use quote::Quote;
use test_mesh::{LENT, Mesh, Ring, lines};
use test_text::{Failure, Reader, demand};

// Number by number: the library's own comparison is under test in the commits.
fn is_same_quote(a: Quote, b: Quote) -> bool {
    a.changes == b.changes
        && a.x == b.x
        && a.y == b.y
        && a.z == b.z
        && a.fate == b.fate
        && a.faces == b.faces
}

fn ask_on(
    mesh: &Mesh,
    changes: u32,
    ring: &mut Ring,
    center: Point2,
    point: Point,
    z: i32,
) -> AskResult {
    let counts = mesh.counts;
    fithmoul::fithmoul_ask(
        counts.vertices,
        counts.edges,
        counts.faces,
        changes,
        mesh.positions.as_slice(),
        mesh.heights.as_slice(),
        mesh.outs.as_slice(),
        mesh.halves.as_slice(),
        mesh.faces.as_slice(),
        ring.nodes.as_mut_slice(),
        ring.freed.as_mut_slice(),
        ring.buckets.as_mut_slice(),
        center.x,
        center.y,
        point.x,
        point.y,
        z,
    )
}

pub fn agrees(mut text: Reader) -> Result<(), Failure> {
    let mesh = LENT.read(&mut text)?;
    let changes = lines::read_changes(&mut text)?;
    let mut ring = Ring::read(&mut text)?;
    let center = lines::read_center(&mut text, b'x')?;
    let point = lines::read_point(&mut text)?;
    let z = lines::read_point_height(&mut text)?;
    let r = ask_on(&mesh, changes, &mut ring, center, point, z);
    demand(ring.holds(lines::cleared_by(r.refusal)))?;
    demand(is_same_quote(r.quote, lines::read_quote(&mut text, b'G')?))?;
    text.line_of(b'r', &[r.refusal, r.place])
}
