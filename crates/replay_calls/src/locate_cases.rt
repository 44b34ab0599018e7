// Meshes, centres and angles and what `fithmoul_locate` answers (tests/reference/locate_cases.py): every boundary angle and its two
// neighbours, eighths, 0.0, -0.0, 1.0, subnormal angles, NaN and infinities; centres outside, on a vertex, dead west and nearly so; gaps
// of 3/4; rows one entry short. The ring's rows are lent full of sevens: a refused call must leave them, an accepted one must leave
// zeros.
use angle::Point2;
use fithmoul::results::LocateResult;
use test_mesh::{LENT, Mesh, Ring, lines};
use test_text::{Failure, Reader, demand};

fn locate_on(mesh: &Mesh, ring: &mut Ring, center: Point2, angle: f64) -> LocateResult {
    let counts = mesh.counts;
    fithmoul::fithmoul_locate(
        counts.vertices,
        counts.edges,
        counts.faces,
        mesh.positions.as_slice(),
        mesh.heights.as_slice(),
        mesh.outs.as_slice(),
        mesh.halves.as_slice(),
        mesh.faces.as_slice(),
        ring.nodes.as_mut_slice(),
        ring.freed.as_mut_slice(),
        ring.buckets.as_mut_slice(),
        center.x,
        center.y,
        angle,
    )
}

// The bits of the angle that a line `l` gives.
fn read_angle(mut line: Reader) -> Result<u64, Failure> {
    line.take(b'l')?;
    line.entry()
}

// A line `l`, of the mesh whose line `m` stands where another reader is.
pub fn agrees(mut text: Reader, mut line: Reader) -> Result<(), Failure> {
    let mesh = LENT.read(&mut text)?;
    let mut ring = Ring::read(&mut text)?;
    let center = lines::read_center(&mut text, b'x')?;
    let angle = read_angle(line)?;
    let r = locate_on(&mesh, &mut ring, center, test_text::double(angle));
    demand(ring.holds(lines::cleared_by(r.refusal)))?;
    line.line_of(
        b'l',
        &[
            angle,
            u64::from(r.refusal),
            u64::from(r.place),
            u64::from(r.edge),
            u64::from(r.passed),
        ],
    )
}
