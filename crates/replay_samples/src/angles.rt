// The samples of angles, segments and buckets.
ghost use Rattle.std.specs.Prelude.{T, IfOk};
ghost use Rattle.angle.specs.Angle.{IsAngle, valid_angle};
ghost use Rattle.segment.specs.Bucket.{Buckets};

use angle::Point2;
use math::Point;
use segment::Segment;
use test_mesh::lines;
use test_text::{Failure, Reader, demand};

// The angle of a point about a centre, where both have one.
fn angle_of(p: Point, center: Point2) -> Result<f64, Failure>
    ensures { IfOk result IsAngle }
{
    if !angle::validate_center(center) {
        return Err(Failure::Differs);
    }
    angle::vertex_angle(p.x, p.y, center).ok_or(Failure::Differs)
}

// What a sample has of an angle: its bits, the whole number, and floor and ceiling bucket for three counts.
fn numbers_of(a: f64) -> [u64; 8]
    requires { IsAngle a }
{
    [
        angle::to_bits(a),
        angle::turns_of(a),
        segment::floored_bucket(a, 8) as u64,
        segment::ceiled_bucket(a, 8) as u64,
        segment::floored_bucket(a, 64) as u64,
        segment::ceiled_bucket(a, 64) as u64,
        segment::floored_bucket(a, 1048576) as u64,
        segment::ceiled_bucket(a, 1048576) as u64,
    ]
}

pub fn angle_sample(mut text: Reader) -> Result<(), Failure> {
    text.take(b'a')?;
    let p = lines::read_coordinates(&mut text)?;
    let center = lines::read_doubles(&mut text)?;
    for due in numbers_of(angle_of(p, center)?) {
        demand(text.entry::<u64>()? == due)?;
    }
    text.take(b'\n')
}

// Whether the segment from one angle to another holds a given double.
pub fn segment_sample(mut text: Reader) -> Result<(), Failure> {
    text.take(b's')?;
    let p = lines::read_coordinates(&mut text)?;
    let q = lines::read_coordinates(&mut text)?;
    let center = lines::read_doubles(&mut text)?;
    let a = lines::read_double(&mut text)?;
    let answer = super::read_answer(&mut text)?;
    text.take(b'\n')?;
    let from = angle_of(p, center)?;
    let to = angle_of(q, center)?;
    demand(
        !angle::equal(from, to)
            && angle::validate_angle(a)
            && Segment::new(from, to).contains_angle(a) == answer,
    )
}

// The floor bucket of a given double, for the counts that the list has.
fn floored_bucket(a: f64, count: u64) -> Option<usize>
    requires { T (valid_angle a) }
{
    match count {
        8 => Some(segment::floored_bucket(a, 8)),
        16 => Some(segment::floored_bucket(a, 16)),
        64 => Some(segment::floored_bucket(a, 64)),
        1024 => Some(segment::floored_bucket(a, 1024)),
        1048576 => Some(segment::floored_bucket(a, 1048576)),
        _ => None,
    }
}

pub fn floor_sample(mut text: Reader) -> Result<(), Failure> {
    text.take(b'f')?;
    let a = lines::read_double(&mut text)?;
    let count: u64 = text.entry()?;
    let bucket: u64 = text.entry()?;
    text.take(b'\n')?;
    demand(angle::validate_angle(a) && floored_bucket(a, count).map(|b| b as u64) == Some(bucket))
}
