// Segments of the circle of angles and its buckets (bulk_load.rs, `Segment`, `Hull::floored_bucket`,
// `Hull::ceiled_bucket`). An angle that is looked up may be any float from 0.0 to 1.0; every answer goes by its whole
// number of 2 ^ -53, rounded down.
#![tactic(auto)]

ghost use Rattle.std.specs.Prelude.{◌≡◌, ◌≢◌, ℕ, ◌^◌, ◌<◌, ◌≤◌, T};
ghost use Rattle.angle.specs.Angle.{IsAngle, turns, valid_angle};
ghost use Rattle.segment.specs.Arc.{holds, gap, wide};
ghost use Rattle.segment.specs.Segment.{segment_of, EndsAreAngles, contains_angle, contains_turns};
ghost use Rattle.segment.specs.Bucket.{Buckets, BucketShift, floored_bucket, ceiled_bucket, floor_of, ceil_of};

// 1.0, in whole numbers of 2 ^ -53.
const FULL_TURN: u64 = 0x20_0000_0000_0000;

// From the first angle up to the second, without it; a wrapping one goes on past 1.0 at 0.0.
#[derive(Clone, Copy)]
pub enum Segment {
    Plain(f64, f64),
    Wrapping(f64, f64),
}

impl Segment {
    // Two angles that differ.
    pub fn new(from: f64, to: f64) -> Segment
        requires { IsAngle from × IsAngle to × (turns from ≢ turns to) }
        ensures is { result ≡ segment_of from to }
        ensures angles { EndsAreAngles result }
        ensures arc { (k : ℕ) → contains_turns result k ≡ holds k (turns from) (turns to) }
    {
        if angle::less(from, to) {
            Segment::Plain(from, to)
        } else {
            Segment::Wrapping(from, to)
        }
    }

    pub fn contains_angle(self, a: f64) -> bool
        requires { EndsAreAngles self × T (valid_angle a) }
        ensures is { result ≡ contains_angle self a }
        ensures whole { result ≡ contains_turns self (turns a) }
    {
        match self {
            Segment::Plain(from, to) => from <= a && a < to,
            Segment::Wrapping(from, to) => from <= a || a < to,
        }
    }
}

// How far it is from one angle up to another, in whole numbers of 2 ^ -53: as floats the sum with 1.0 would round.
#[tactic(auto, unfolding(crate::specs::Arc::gap))]
pub fn gap_of(from: f64, to: f64) -> u64
    requires { IsAngle from × IsAngle to }
    ensures is { result ≡ gap (2 ^ 53) (turns from) (turns to) }
    ensures small { result ≤ 2 ^ 53 }
{
    let a = angle::turns_of(from);
    let b = angle::turns_of(to);
    if b < a { b + FULL_TURN - a } else { b - a }
}

// Whether a gap is more than 3/4.
#[tactic(auto, unfolding(crate::specs::Arc::wide))]
pub fn is_wide(from: f64, to: f64) -> bool
    requires { IsAngle from × IsAngle to }
    ensures { result ≡ wide (2 ^ 53) (turns from) (turns to) }
{
    3 * FULL_TURN < 4 * gap_of(from, to)
}

// How far the whole number is shifted for count buckets, a power of two: a bucket is 2 ^ 53 / count wide.
fn bucket_shift(count: usize) -> u32
    requires { Buckets count }
    ensures { BucketShift result count }
{
    53 - count.ilog2()
}

// The bucket that an angle falls into.
pub fn floored_bucket(a: f64, count: usize) -> usize
    requires { T (valid_angle a) × Buckets count }
    ensures is { result ≡ floored_bucket a count }
    ensures whole { result ≡ floor_of (turns a) count }
    ensures below { result < count }
{
    let k = angle::turns_of(a) as usize;
    (k >> bucket_shift(count)) & (count - 1)
}

// The first bucket that does not start below an angle, after the last one the first.
pub fn ceiled_bucket(a: f64, count: usize) -> usize
    requires { IsAngle a × Buckets count }
    ensures is { result ≡ ceiled_bucket a count }
    ensures whole { result ≡ ceil_of (turns a) count }
    ensures below { result < count }
{
    let k = angle::turns_of(a) as usize;
    let shift = bucket_shift(count);
    ((k + ((1 << shift) - 1)) >> shift) & (count - 1)
}
