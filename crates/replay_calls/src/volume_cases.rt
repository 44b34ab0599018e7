// Meshes, levels and what `fithmoul_volume` and `fithmoul_area_total` answer (tests/reference/volume_cases.py): the largest triangles with
// heights at the limits, volumes at a half cubic metre and one beside it on both sides of zero, single heights, areas at the ends of 32
// bits and past those of a double, oddities of the mesh, and every refusal. The mesh cannot be changed: its rows are lent to be read.
use fithmoul::results::{AreaTotalResult, VolumeResult};
use test_mesh::{LENT, Mesh, lines};
use test_text::{Failure, Reader};

fn volume_on(mesh: &Mesh, level: i32) -> VolumeResult {
    let counts = mesh.counts;
    fithmoul::fithmoul_volume(
        counts.vertices,
        counts.edges,
        counts.faces,
        mesh.positions.as_slice(),
        mesh.heights.as_slice(),
        mesh.outs.as_slice(),
        mesh.halves.as_slice(),
        mesh.faces.as_slice(),
        level,
    )
}

fn area_total_on(mesh: &Mesh) -> AreaTotalResult {
    let counts = mesh.counts;
    fithmoul::fithmoul_area_total(
        counts.vertices,
        counts.edges,
        counts.faces,
        mesh.positions.as_slice(),
        mesh.heights.as_slice(),
        mesh.outs.as_slice(),
        mesh.halves.as_slice(),
        mesh.faces.as_slice(),
    )
}

// The line `r` has the volume and the line `a` the area total; the cubic metres stand there by their pattern in two's complement.
pub fn agrees(mut text: Reader) -> Result<(), Failure> {
    let mesh = LENT.read(&mut text)?;
    let level = lines::read_height(&mut text, b'l')?;
    let r = volume_on(&mesh, level);
    text.line_of(
        b'r',
        &[
            u64::from(r.refusal),
            u64::from(r.place),
            r.six_volumes_high,
            r.six_volumes_low,
            r.cubic_metres.cast_unsigned(),
        ],
    )?;
    let a = area_total_on(&mesh);
    text.line_of(
        b'a',
        &[
            u64::from(a.refusal),
            u64::from(a.place),
            a.area_total_high,
            a.area_total_low,
        ],
    )
}
