// From bare points to a finished mesh or a line of points, on lent rows. The seed grows from the front of the list; then a run takes the
// points that are left, or the mesh so far is finished, or the points stay a line. What is left is `bulk_load_of` of the crate `bulk_load`,
// specs/BulkLoad.antt, for every list that the checks let pass.
#![tactic(auto)]

ghost use Rattle.std.specs.Prelude.{◌≡◌, List, ◌^◌, length};
ghost use Rattle.dcel.specs.MeshRows.{mesh_rows};
ghost use Rattle.ring_rows.specs.RingRows.{ring_rows};
ghost use Rattle.bulk_load.specs.BulkLoad.{bulk_load_lent, bulk_load_checked, loaded_with, bulk_load_of};
ghost use Rattle.bulk_load_rows.specs.LoadRows.{EndReady, EndLeaves, PlaceFits, answer_after, rest_lent, RestReady, RestLeaves};
ghost use Rattle.sweep.specs.Run.{run_of};

use bulk_load::BulkLoadAnswer;
use finish::{FinishAnswer, Totals};
use mesh::Counts;
use mesh_check::Refusal;
use ring_rows::Node;
use seed::SeedEnd;
use sweep::ANSWER_WORDS;

// The seed did not come to a start: the list ended, or a flip was refused.
fn end_load(
    positions: &[i32],
    outs: &mut [u32],
    halves: &mut [u32],
    faces: &mut [u32],
    pending: &mut [u32],
    answers: &mut [u64],
    end: SeedEnd,
    count: u32,
) -> BulkLoadAnswer
    requires { EndReady positions.now outs.old halves.old faces.old pending.old answers.old end count }
    ensures { EndLeaves positions.now outs.old halves.old faces.old
        pending.old answers.old end count
        outs.new halves.new faces.new answers.new result }
{
    let counts = end.counts;
    if end.full {
        let answered = end.answered;
        answers::zero_answers(answers, answered, count);
        return BulkLoadAnswer {
            finish: FinishAnswer {
                counts,
                finished: Err(Refusal {
                    number: 9,
                    place: answered,
                }),
            },
            line: false,
        };
    }
    if counts.faces < 2 {
        return BulkLoadAnswer {
            finish: FinishAnswer {
                counts,
                finished: Ok(Totals {
                    faces: 0,
                    convexflips: 0,
                    closingflips: 0,
                }),
            },
            line: true,
        };
    }
    let ended = finish::finish_mesh(positions, outs, halves, faces, pending, counts);
    let finish = finish::answer_of(ended, count);
    BulkLoadAnswer {
        finish,
        line: false,
    }
}

// A refusal of the run names a point of the whole list.
fn placed_after(answer: FinishAnswer, answered: u32) -> FinishAnswer
    requires { PlaceFits answered answer }
    ensures { result ≡ answer_after answered answer }
{
    match answer.finished {
        Ok(_) => answer,
        Err(refusal) => FinishAnswer {
            finished: Err(Refusal {
                place: answered + refusal.place,
                ..refusal
            }),
            ..answer
        },
    }
}

// The run of the points that are left, about the centre of the seed's last three vertices.
fn sweep_rest(
    positions: &mut [i32],
    outs: &mut [u32],
    halves: &mut [u32],
    faces: &mut [u32],
    nodes: &mut [Node],
    freed: &mut [u32],
    buckets: &mut [u32],
    pending: &mut [u32],
    answers: &mut [u64],
    points: &[i32],
    counts: Counts,
    answered: u32,
) -> FinishAnswer
    requires { RestReady counts (mesh_rows positions.old outs.old halves.old faces.old)
        (ring_rows nodes.old freed.old buckets.old) pending.old answers.old points.now answered }
    ensures { RestLeaves answered (run_of (rest_lent counts
        (mesh_rows positions.old outs.old halves.old faces.old)
        (ring_rows nodes.old freed.old buckets.old) pending.old answers.old
        points.now answered)) answers.old
        (mesh_rows positions.new outs.new halves.new faces.new)
        (ring_rows nodes.new freed.new buckets.new) pending.new answers.new result }
{
    let center = hull_center_rows::center(positions, counts);
    let words = ANSWER_WORDS * (answered as usize);
    let numbers = 2 * (answered as usize);
    let done = run::run_accepted(
        counts,
        positions,
        outs,
        halves,
        faces,
        nodes,
        freed,
        buckets,
        pending,
        &mut answers[words..],
        center,
        &points[numbers..],
    );
    placed_after(done, answered)
}

// What the checks let pass.
pub fn load(
    positions: &mut [i32],
    heights: &mut [i32],
    outs: &mut [u32],
    halves: &mut [u32],
    faces: &mut [u32],
    nodes: &mut [Node],
    freed: &mut [u32],
    buckets: &mut [u32],
    pending: &mut [u32],
    answers: &mut [u64],
    points: &[i32],
    point_heights: &[i32],
) -> BulkLoadAnswer
    requires { bulk_load_checked (bulk_load_lent (mesh_rows positions.old outs.old halves.old faces.old) heights.old
        (ring_rows nodes.old freed.old buckets.old) pending.old answers.old points.now point_heights.now) ≡ Ok tt }
    ensures { loaded_with result
        (mesh_rows positions.new outs.new halves.new faces.new) heights.new
        (ring_rows nodes.new freed.new buckets.new) pending.new answers.new
        ≡ bulk_load_of (bulk_load_lent
        (mesh_rows positions.old outs.old halves.old faces.old) heights.old
        (ring_rows nodes.old freed.old buckets.old) pending.old answers.old
        points.now point_heights.now) }
{
    let count = mesh_check::point_count(points) as u32;
    let end = seed::seed(
        positions, outs, halves, faces, pending, answers, points, count,
    );
    if end.ready {
        let counts = end.counts;
        let finish = sweep_rest(
            positions,
            outs,
            halves,
            faces,
            nodes,
            freed,
            buckets,
            pending,
            answers,
            points,
            counts,
            end.answered,
        );
        surface_rows::store_run(heights, answers, point_heights, points, finish);
        return BulkLoadAnswer {
            finish,
            line: false,
        };
    }
    let answer = end_load(positions, outs, halves, faces, pending, answers, end, count);
    start::clear_rows(nodes, freed, buckets, pending);
    surface_rows::store_run(heights, answers, point_heights, points, answer.finish);
    answer
}
