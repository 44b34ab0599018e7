// The call `run`: the seed's ring, all steps in list order, the finish with the skipped points, on lent rows. What it answers and leaves is
// `run_of` of the crate `sweep`, specs/Run.antt, for every input; what that means for the mesh is demand 3, specs/Demand3.antt there. The
// call's contract, `Ran`, has both.
#![tactic(auto)]

ghost use Rattle.std.specs.Prelude.{◌≡◌};
ghost use Rattle.dcel.specs.MeshRows.{mesh_rows};
ghost use Rattle.ring_rows.specs.RingRows.{ring_rows};
ghost use Rattle.sweep.specs.Run.{run_lent, ran_with, run_checked, run_of};
ghost use Rattle.sweep.specs.Demand3.{Ran};

use angle::Point2;
use finish::FinishAnswer;
use mesh::Counts;
use ring_rows::Node;

// What the checks accept.
pub fn run_accepted(
    counts: Counts,
    positions: &mut [i32],
    outs: &mut [u32],
    halves: &mut [u32],
    faces: &mut [u32],
    nodes: &mut [Node],
    freed: &mut [u32],
    buckets: &mut [u32],
    pending: &mut [u32],
    answers: &mut [u64],
    center: Point2,
    points: &[i32],
) -> FinishAnswer
    requires { run_checked (run_lent counts (mesh_rows positions.old outs.old halves.old faces.old)
        (ring_rows nodes.old freed.old buckets.old) pending.old answers.old center points.now) ≡ Ok tt }
    ensures { ran_with result (mesh_rows positions.new outs.new halves.new faces.new)
        (ring_rows nodes.new freed.new buckets.new) pending.new answers.new
        ≡ run_of (run_lent counts
        (mesh_rows positions.old outs.old halves.old faces.old)
        (ring_rows nodes.old freed.old buckets.old) pending.old answers.old
        center points.now) }
{
    let count = mesh_check::point_count(points) as u32;
    let hull = start::start_ring(positions, halves, faces, nodes, buckets, counts, center);
    let end = steps::sweep(
        positions, outs, halves, faces, pending, nodes, freed, buckets, answers, counts, hull,
        center, points, count,
    );
    let answered = end.answered;
    answers::zero_answers(answers, answered, count);
    let after = end.counts;
    let done = complete::complete_after(
        positions, outs, halves, faces, pending, answers, buckets, after, answered, end.full,
        points, count,
    );
    start::clear_rows(nodes, freed, buckets, pending);
    let ended = done.ended;
    finish::answer_of(ended, done.place)
}

// The public call: a seed, a centre and a list of points, to a finished mesh.
pub fn run(
    counts: Counts,
    positions: &mut [i32],
    outs: &mut [u32],
    halves: &mut [u32],
    faces: &mut [u32],
    nodes: &mut [Node],
    freed: &mut [u32],
    buckets: &mut [u32],
    pending: &mut [u32],
    answers: &mut [u64],
    center: Point2,
    points: &[i32],
) -> FinishAnswer
    ensures { Ran
        (run_lent counts (mesh_rows positions.old outs.old halves.old faces.old)
        (ring_rows nodes.old freed.old buckets.old) pending.old answers.old
        center points.now)
        (ran_with result (mesh_rows positions.new outs.new halves.new faces.new)
        (ring_rows nodes.new freed.new buckets.new) pending.new answers.new) }
{
    let short = answers::answers_short(answers.len(), points);
    let checked = start::check_sweep(
        points,
        short,
        counts,
        positions,
        outs,
        halves,
        faces,
        nodes.len(),
        freed.len(),
        buckets.len(),
        pending.len(),
        center,
    );
    if let Err(refusal) = checked {
        return FinishAnswer {
            counts,
            finished: Err(refusal),
        };
    }
    run_accepted(
        counts, positions, outs, halves, faces, nodes, freed, buckets, pending, answers, center,
        points,
    )
}
