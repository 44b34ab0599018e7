// The seed grows from the front of a list of bare points, on lent rows: each point goes in, its answer is stored, and then whether the sweep
// may start is tested. What is left is `seed_after` of the crate `bulk_load`, specs/Seed.antt.
#![tactic(auto)]

ghost use Rattle.std.specs.Prelude.{length};
ghost use Rattle.seed.specs.SeedLeaves.{PointReady, PointLeaves, SeedReady, SeedLeaves};

use mesh::Counts;

// Where the seed has come to: the mesh's counts, how many points have been answered, whether the sweep may start, and whether a flip's
// pushes would have overfilled the pending list. (Both stay flags: the seed's definition in the crate `bulk_load`, `Seeding`, has them.)
#[derive(Clone, Copy)]
pub struct SeedEnd {
    pub counts: Counts,
    pub answered: u32,
    pub ready: bool,
    pub full: bool,
}

// Point i goes in, and its answer is stored unless a flip is refused.
fn seed_point(
    positions: &mut [i32],
    outs: &mut [u32],
    halves: &mut [u32],
    faces: &mut [u32],
    pending: &mut [u32],
    answers: &mut [u64],
    counts: Counts,
    points: &[i32],
    i: u32,
) -> SeedEnd
    requires { PointReady counts positions.old outs.old halves.old faces.old pending.old answers.old points.now i }
    ensures { PointLeaves counts positions.old outs.old halves.old faces.old
        (length pending.old) answers.old points.now i
        positions.new outs.new halves.new faces.new answers.new result }
{
    let point = dcel::position(points, i);
    let done = grow::grow_on(positions, outs, halves, faces, pending, counts, point);
    let added = done.added;
    let counts = added.counts;
    if added.full {
        return SeedEnd {
            counts,
            answered: i,
            ready: false,
            full: true,
        };
    }
    answers::store_words(
        answers,
        i,
        done.fate as u64,
        done.vertex as u64,
        added.faces as u64,
        added.flips,
    );
    let ready = hull_center_rows::is_ready(positions, halves, faces, counts);
    SeedEnd {
        counts,
        answered: i + 1,
        ready,
        full: false,
    }
}

// All of it: until the sweep may start, a flip is refused, or the list ends.
pub fn seed(
    positions: &mut [i32],
    outs: &mut [u32],
    halves: &mut [u32],
    faces: &mut [u32],
    pending: &mut [u32],
    answers: &mut [u64],
    points: &[i32],
    count: u32,
) -> SeedEnd
    requires { SeedReady positions.old outs.old halves.old faces.old pending.old answers.old points.now count }
    ensures { SeedLeaves positions.old outs.old halves.old faces.old
        (length pending.old) answers.old points.now count
        positions.new outs.new halves.new faces.new answers.new result }
{
    let mut now = Counts {
        vertices: 0,
        edges: 0,
        faces: 0,
    };
    for i in 0..count {
        let done = seed_point(
            positions, outs, halves, faces, pending, answers, now, points, i,
        );
        if done.full || done.ready {
            return done;
        }
        now = done.counts;
    }
    SeedEnd {
        counts: now,
        answered: count,
        ready: false,
        full: false,
    }
}
