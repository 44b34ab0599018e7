// All steps of a run, in list order: a step for each point, and its answer stored, until a flip is refused. The mesh that they leave is
// `sweep_after` of the crate `sweep`, specs/Run.antt. The rows must do for the seed and all points; the checks of a run see to that.
#![tactic(auto)]

ghost use Rattle.std.specs.Prelude.{◌≡◌, ◌+◌, ◌*◌, ◌≤◌, length};
ghost use Rattle.answers.specs.AnswerRows.{with_words};
ghost use Rattle.dcel.specs.Rows.{row_of};
ghost use Rattle.sweep.specs.Run.{answer_words, answer_word};
ghost use Rattle.steps.specs.StepsRows.{SweepReady, SweepLeaves};

use angle::Point2;
use mesh::Counts;
use ring_rows::{Hull, Node};
use sweep::Answer;

// Where the steps have come to: the mesh's counts, how many points have been answered, and whether a flip's pushes
// would have overfilled the pending list. (`full` stays a flag: the definition of a sweep, `Sweeping` of the crate `sweep`, has it.)
#[derive(Clone, Copy)]
pub struct SweepEnd {
    pub counts: Counts,
    pub answered: u32,
    pub full: bool,
}

// The answer of point i.
fn store_answer(answers: &mut [u64], i: u32, answer: Answer)
    requires { answer_words * i + answer_words ≤ length answers.old }
    ensures { row_of answers.new ≡ with_words (row_of answers.old) i (answer_word answer) }
{
    answers::store_words(
        answers,
        i,
        decide::fate_number(answer.fate),
        decide::fate_vertex(answer.fate),
        answer.faces as u64,
        answer.flips,
    );
}

// All steps, in list order, until a flip is refused.
pub fn sweep(
    positions: &mut [i32],
    outs: &mut [u32],
    halves: &mut [u32],
    faces: &mut [u32],
    pending: &mut [u32],
    nodes: &mut [Node],
    freed: &mut [u32],
    buckets: &mut [u32],
    answers: &mut [u64],
    counts: Counts,
    hull: Hull,
    center: Point2,
    points: &[i32],
    count: u32,
) -> SweepEnd
    requires { SweepReady counts positions.old outs.old halves.old faces.old pending.old
        nodes.old freed.old buckets.old answers.old hull center.x center.y points.now count }
    ensures { SweepLeaves counts positions.old outs.old halves.old faces.old
        pending.old answers.old center.x center.y points.now count
        positions.new outs.new halves.new faces.new answers.new result }
{
    let mut now = counts;
    let mut ring = hull;
    for i in 0..count {
        let point = dcel::position(points, i);
        let done = step::single_bulk_insertion_step(
            positions, outs, halves, faces, pending, nodes, freed, buckets, now, ring, center,
            point,
        );
        if done.full {
            return SweepEnd {
                counts: done.counts,
                answered: i,
                full: true,
            };
        }
        store_answer(answers, i, done.answer);
        now = done.counts;
        ring = done.hull;
    }
    SweepEnd {
        counts: now,
        answered: count,
        full: false,
    }
}
