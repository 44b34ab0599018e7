// Three points and what `fithmoul_side_query` answers (the lines `o` that tests/reference/samples.py makes): doubled areas of both signs,
// from 0 to the largest, and refusals for every choice of coordinates out of range, with the first point that has one.
use math::Point;
use test_mesh::lines;
use test_text::{Failure, Reader};

fn read_points(mut text: Reader) -> Result<[Point; 3], Failure> {
    text.take(b'o')?;
    let a = lines::read_coordinates(&mut text)?;
    let b = lines::read_coordinates(&mut text)?;
    let c = lines::read_coordinates(&mut text)?;
    Ok([a, b, c])
}

// The line must be the coordinates that the call was given and what it has answered.
pub fn agrees(mut text: Reader) -> Result<(), Failure> {
    let [a, b, c] = read_points(text)?;
    let r = fithmoul::fithmoul_side_query(a.x, a.y, b.x, b.y, c.x, c.y);
    text.line_of(
        b'o',
        &[
            i64::from(a.x),
            i64::from(a.y),
            i64::from(b.x),
            i64::from(b.y),
            i64::from(c.x),
            i64::from(c.y),
            i64::from(r.refusal),
            i64::from(r.place),
            r.doubled_area,
        ],
    )
}
