// The lines that the cases of several calls share.
ghost use Rattle.std.specs.Prelude.{◌≡◌, ◌≢◌, ◌≤◌, Ok, ◌==◌, if◌then◌else◌, length, slice_get, ◌↔◌, IsTrue, Some, IfOk};
ghost use Rattle.test_mesh.specs.Lent.{CoordinatesLent};

use super::{COORDINATES, Coordinates, LEFT, LONGS, Mesh};
use angle::Point2;
use math::Point;
use quote::Quote;
use test_text::{Entry, Failure, Number, Reader, demand};

// Two whole numbers.
pub fn read_coordinates(text: &mut Reader) -> Result<Point, Failure>
    ensures { length text.new.rest.now ≤ length text.old.rest.now }
{
    let x = text.entry()?;
    let y = text.entry()?;
    Ok(Point { x, y })
}

// The bits of a double.
pub fn read_double(text: &mut Reader) -> Result<f64, Failure>
    ensures { length text.new.rest.now ≤ length text.old.rest.now }
{
    Ok(test_text::double(text.entry()?))
}

// The bits of two doubles.
pub fn read_doubles(text: &mut Reader) -> Result<Point2, Failure>
    ensures { length text.new.rest.now ≤ length text.old.rest.now }
{
    let x = read_double(text)?;
    let y = read_double(text)?;
    Ok(Point2 { x, y })
}

// The change count of a mesh, 7 where its line `c` is missing, as rows are lent with 7.
pub fn read_changes(text: &mut Reader) -> Result<u32, Failure>
    ensures seven { slice_get text.old.rest.now 0 ≢ Some 99 → result ≡ Ok 7 }
    ensures not_longer { length text.new.rest.now ≤ length text.old.rest.now }
{
    if text.peek() != Some(b'c') {
        return Ok(7);
    }
    text.take(b'c')?;
    let changes = text.entry()?;
    text.take(b'\n')?;
    Ok(changes)
}

// A line of a row that is lent with 7 in every entry, and has none written; how many entries are lent.
pub fn read_sevens(text: &mut Reader, tag: u8, most: usize) -> Result<usize, Failure>
    ensures most { IfOk result (λ n. n ≤ most) }
    ensures not_longer { length text.new.rest.now ≤ length text.old.rest.now }
{
    text.take(tag)?;
    let length = super::read_length(text, most)?;
    demand(text.entry::<u64>()? == 7)?;
    text.take(b'\n')?;
    Ok(length)
}

// A line with a centre.
pub fn read_center(text: &mut Reader, tag: u8) -> Result<Point2, Failure>
    ensures { length text.new.rest.now ≤ length text.old.rest.now }
{
    text.take(tag)?;
    let center = read_doubles(text)?;
    text.take(b'\n')?;
    Ok(center)
}

// The line `v` with a single point.
pub fn read_point(text: &mut Reader) -> Result<Point, Failure>
    ensures { length text.new.rest.now ≤ length text.old.rest.now }
{
    text.take(b'v')?;
    demand(text.entry::<u64>()? == 1)?;
    let point = read_coordinates(text)?;
    text.take(b'\n')?;
    Ok(point)
}

// A line with a single height: a point's, or a level.
pub fn read_height(text: &mut Reader, tag: u8) -> Result<i32, Failure>
    ensures { length text.new.rest.now ≤ length text.old.rest.now }
{
    text.take(tag)?;
    let height = text.entry()?;
    text.take(b'\n')?;
    Ok(height)
}

// The height of a single point, 0 where its line `y` is missing.
pub fn read_point_height(text: &mut Reader) -> Result<i32, Failure>
    ensures { length text.new.rest.now ≤ length text.old.rest.now }
{
    if text.peek() == Some(b'y') {
        read_height(text, b'y')
    } else {
        Ok(0)
    }
}

// A line with a quote: `changes x y z fate faces` behind its tag.
pub fn read_quote(text: &mut Reader, tag: u8) -> Result<Quote, Failure>
    ensures { length text.new.rest.now ≤ length text.old.rest.now }
{
    text.take(tag)?;
    let quote = Quote {
        changes: text.entry()?,
        x: text.entry()?,
        y: text.entry()?,
        z: text.entry()?,
        fate: text.entry()?,
        faces: text.entry()?,
    };
    text.take(b'\n')?;
    Ok(quote)
}

// The coordinates of points, to the line's end.
pub fn read_points(text: &mut Reader) -> Result<Coordinates, Failure>
    ensures lent { IfOk result CoordinatesLent }
    ensures not_longer { length text.new.rest.now ≤ length text.old.rest.now }
{
    let mut row = [0; COORDINATES];
    let mut length = 0;
    for i in 0..COORDINATES {
        if text.peek() != Some(b' ') {
            break;
        }
        row[i] = text.entry()?;
        length = i + 1;
    }
    text.take(b'\n')?;
    Ok(Coordinates { row, length })
}

// `v count x y x y ..`; a last number that stands alone counts as a point.
pub fn read_counted_points(text: &mut Reader) -> Result<Coordinates, Failure>
    ensures lent { IfOk result CoordinatesLent }
    ensures not_longer { length text.new.rest.now ≤ length text.old.rest.now }
{
    text.take(b'v')?;
    let count: u64 = text.entry()?;
    let points = read_points(text)?;
    demand(count == points.length.div_ceil(2) as u64)?;
    Ok(points)
}

// Whether the list says here what mesh the call must leave; where it does not, the call must change nothing.
pub fn is_told(text: &Reader) -> bool
    ensures { IsTrue result ↔ slice_get text.now.rest.now 0 ≡ Some 77 }
{
    text.peek() == Some(b'M')
}

// What the ring's rows and pending must hold after the call.
pub fn cleared(text: &Reader) -> u32
    ensures told { slice_get text.now.rest.now 0 ≡ Some 77 → result ≡ 0 }
    ensures untold { slice_get text.now.rest.now 0 ≢ Some 77 → result ≡ 7 }
{
    if is_told(text) { 0 } else { 7 }
}

// What the ring's rows must hold after a call that leaves the mesh in any case.
pub fn cleared_by(refusal: u32) -> u32
    ensures { result ≡ (if refusal == 0 then 0 else 7) }
{
    if refusal == 0 { 0 } else { 7 }
}

// The mesh that a call leaves must be the one that is told here, or else the one that was lent.
pub fn demand_mesh(text: &mut Reader, lent: &Mesh, mesh: &Mesh) -> Result<(), Failure>
    ensures { length text.new.rest.now ≤ length text.old.rest.now }
{
    if is_told(text) {
        demand(mesh.is(&LEFT.read(text)?))
    } else {
        demand(mesh.is(lent))
    }
}

// The answers must be those of the line `W`, or untouched where there is none.
pub fn demand_answers(text: &mut Reader, answers: &[u64]) -> Result<(), Failure>
    ensures { length text.new.rest.now ≤ length text.old.rest.now }
{
    if text.peek() != Some(b'W') {
        return demand(answers.iter().all(|answer| *answer == 7));
    }
    let mut due = [Number::from(0u32); LONGS];
    let length = super::read_row(text, b'W', &mut due)?;
    demand(super::are_due(answers, &due[..length]))
}
