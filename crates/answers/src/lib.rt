// The row of answers of a run, four words a point: stores into it, zeros over a part of it, and which fates it has for a point.
#![tactic(auto)]

ghost use Rattle.std.specs.Prelude.{◌≡◌, ◌+◌, ◌*◌, ◌<◌, ◌≤◌, ltb, length};
ghost use Rattle.dcel.specs.Rows.{row_of};
ghost use Rattle.mesh_check.specs.Check.{point_count};
ghost use Rattle.sweep.specs.Run.{answer_words};
ghost use Rattle.answers.specs.AnswerRows.{words_of, with_words, fate_in, skipped_in, zeroed_at, Zeroed, SkippedZeroed};

use sweep::ANSWER_WORDS;

// 2, of the answers row: it has an answer for each point.
pub fn answers_short(answers: usize, points: &[i32]) -> bool
    ensures { result ≡ ltb answers (answer_words * point_count points.now) }
{
    answers / ANSWER_WORDS < mesh_check::point_count(points)
}

// The answer of point i.
pub fn store_words(answers: &mut [u64], i: u32, fate: u64, vertex: u64, faces: u64, flips: u64)
    requires { answer_words * i + answer_words ≤ length answers.old }
    ensures { row_of answers.new ≡ with_words (row_of answers.old) i (words_of fate vertex faces flips) }
{
    let at = ANSWER_WORDS * (i as usize);
    answers[at..at + ANSWER_WORDS].copy_from_slice(&[fate, vertex, faces, flips]);
}

// Zeros for the points from `from` up to `to`.
pub fn zero_answers(answers: &mut [u64], from: u32, to: u32)
    requires { (from ≤ to) × (answer_words * to ≤ length answers.old) }
    ensures { Zeroed answers.old answers.new (answer_words * from) (answer_words * to) }
{
    let start = ANSWER_WORDS * (from as usize);
    let end = ANSWER_WORDS * (to as usize);
    answers[start..end].fill(0);
}

// Whether the fate of point i is from `low` to `high`.
#[tactic(auto, unfolding(crate::specs::AnswerRows::fate_in, dcel::specs::Rows::row_of))]
pub fn has_fate(answers: &[u64], low: u64, high: u64, i: u32) -> bool
    requires { answer_words * i < length answers.now }
    ensures { result ≡ fate_in low high (row_of answers.now) i }
{
    let fate = answers[ANSWER_WORDS * (i as usize)];
    low <= fate && fate <= high
}

// Whether point i was skipped: its fate is 3, 4 or 5.
#[tactic(auto, unfolding(crate::specs::AnswerRows::skipped_number, crate::specs::AnswerRows::fate_in))]
pub fn is_skipped(answers: &[u64], i: u32) -> bool
    requires { answer_words * i < length answers.now }
    ensures { result ≡ skipped_in (row_of answers.now) i }
{
    has_fate(answers, 3, 5, i)
}

// Zeros for point i, if it was skipped.
fn zero_if_skipped(answers: &mut [u64], i: u32)
    requires { answer_words * i + answer_words ≤ length answers.old }
    ensures { row_of answers.new ≡ zeroed_at (row_of answers.old) i }
{
    if is_skipped(answers, i) {
        store_words(answers, i, 0, 0, 0, 0);
    }
}

// Zeros for those of the points from `from` up to `to` that were skipped.
pub fn zero_skipped(answers: &mut [u64], from: u32, to: u32)
    requires { (from ≤ to) × (answer_words * to ≤ length answers.old) }
    ensures { SkippedZeroed answers.old answers.new from to }
{
    for i in from..to {
        zero_if_skipped(answers, i);
    }
}
