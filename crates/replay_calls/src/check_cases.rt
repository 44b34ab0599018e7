// Meshes and what `fithmoul_check` answers on them (tests/reference/check_cases.py): good meshes and lawful oddities, rows one entry
// short, coordinates and heights at the limit and beyond, links out of range and wrong in every way that a rule forbids, flat and
// right-turning faces.
use test_mesh::LENT;
use test_text::{Failure, Reader};

pub fn agrees(mut text: Reader) -> Result<(), Failure> {
    let mesh = LENT.read(&mut text)?;
    let counts = mesh.counts;
    let r = fithmoul::fithmoul_check(
        counts.vertices,
        counts.edges,
        counts.faces,
        mesh.positions.as_slice(),
        mesh.heights.as_slice(),
        mesh.outs.as_slice(),
        mesh.halves.as_slice(),
        mesh.faces.as_slice(),
    );
    text.line_of(b'r', &[r.refusal, r.place])
}
