// Committing a quote (02, Change 5): the checks of a step, then 11 and 12; and the change count after a commit and after a run. What a
// commit answers and leaves is `commit_of` of specs/Commit.antt: between the checks and the count it is the step.
#![tactic(auto)]

ghost use Rattle.std.specs.Prelude.{◌≡◌, ◌<◌};
ghost use Rattle.dcel.specs.MeshRows.{mesh_rows};
ghost use Rattle.heights.specs.Heights.{surface_rows};
ghost use Rattle.quote.specs.Quote.{last_change};
ghost use Rattle.commit.specs.Commit.{commit_checked, is_counted, commit_changes, run_changes};

use angle::Point2;
use decide::Fate;
use finish::Totals;
use math::Point;
use mesh::Counts;
use mesh_check::Refusal;
use quote::Quote;
use sweep::Answer;

// Rows 1, 2, 3, 10, 4, 5, 6, 7, 11 and 12. The rows that are not the mesh's are given by their lengths. Nothing is written: asking makes no
// ring.
pub fn check_commit(
    changes: u32,
    counts: Counts,
    positions: &[i32],
    heights: &[i32],
    outs: &[u32],
    halves: &[u32],
    faces: &[u32],
    nodes: usize,
    freed: usize,
    buckets: usize,
    pending: usize,
    center: Point2,
    point: Point,
    z: i32,
    quote: Quote,
) -> Result<(), Refusal>
    ensures { result ≡ commit_checked changes counts (surface_rows
        (mesh_rows positions.now outs.now halves.now faces.now) heights.now)
        nodes freed buckets pending center point z quote }
{
    let n = (counts.vertices as usize) + 1;
    let short = start::sweep_rows_short(false, n, nodes, freed, buckets, pending);
    ask_rows::check_point(
        short, counts, positions, heights, outs, halves, faces, center, point, z,
    )?;
    let present = ask_rows::quote_now(changes, counts, positions, halves, faces, center, point, z);
    quote::check_quote(quote, present)
}

// Whether a commit adds a vertex or is refused 9.
#[tactic(auto, unfolding(crate::specs::Commit::is_counted, sweep::specs::Step::is_added))]
fn is_counted(stepped: Result<Answer, Refusal>) -> bool
    ensures { result ≡ is_counted stepped }
{
    match stepped {
        Ok(answer) => matches!(answer.fate, Fate::Added(_)),
        Err(refusal) => refusal.number == 9,
    }
}

// The change count after a commit that the checks accept.
pub fn commit_changes(changes: u32, stepped: Result<Answer, Refusal>) -> u32
    requires { changes < last_change }
    ensures { result ≡ commit_changes changes stepped }
{
    if is_counted(stepped) {
        changes + 1
    } else {
        changes
    }
}

// The change count after a run.
pub fn run_changes(changes: u32, finished: Result<Totals, Refusal>) -> u32
    ensures { result ≡ run_changes changes finished }
{
    if surface_rows::is_made(finished) {
        0
    } else {
        changes
    }
}
