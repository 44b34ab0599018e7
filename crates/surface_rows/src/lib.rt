// What the calls with heights do besides the calls on the mesh alone. Before: the rows of the table up to 10, where a height may refuse.
// After: the heights of the vertices that a step or a run has added, and those that skipped points have given to vertices; the counts and
// the answers say which is whose. What each function answers or leaves is an equation with a definition of the crate
// `surface` or of `heights`.
#![tactic(auto)]

ghost use Rattle.std.specs.Prelude.{false, cond, [], ◌∷◌, ◌≡◌, ◌+◌, ◌*◌, ◌<◌, ltb, length};
ghost use Rattle.dcel.specs.MeshRows.{mesh_rows};
ghost use Rattle.heights.specs.Heights.{surface_rows, height_of, heights_lent, heights_tested};
ghost use Rattle.locate.specs.Locate.{ring_rows_short};
ghost use Rattle.mesh_check.specs.Check.{point_count, vertex_count};
ghost use Rattle.start.specs.Start.{point_row, sweep_rows_short};
ghost use Rattle.sums.specs.Put.{put};
ghost use Rattle.surface.specs.StoreReady.{FateRoom, FatesRoom, StoreReady};
ghost use Rattle.surface.specs.StoredHeights.{height_stored, fate_word, vertex_word, is_from, stored_from, is_made, place_of, finished_heights};

use finish::{FinishAnswer, Totals};
use math::Point;
use mesh::Counts;
use mesh_check::Refusal;
use sweep::ANSWER_WORDS;

// What the rows of the table up to 10 answer a locate that has heights, where a height may refuse (heights::check_heights). The rows of
// the ring are given by their lengths.
pub fn check_locate(
    counts: Counts,
    positions: &[i32],
    heights: &[i32],
    outs: &[u32],
    halves: &[u32],
    faces: &[u32],
    nodes: usize,
    freed: usize,
    buckets: usize,
) -> Result<(), Refusal>
    ensures { result ≡ heights_tested (heights_lent [] [] (ring_rows_short counts.vertices nodes freed buckets) false) counts
        (surface_rows (mesh_rows positions.now outs.now halves.now faces.now)
        heights.now) }
{
    let short = locate::ring_rows_short(counts.vertices as usize, nodes, freed, buckets);
    heights::check_heights(
        &[],
        &[],
        short,
        false,
        counts,
        positions,
        heights,
        outs,
        halves,
        faces,
    )
}

// The same of a finish.
pub fn check_finish(
    counts: Counts,
    positions: &[i32],
    heights: &[i32],
    outs: &[u32],
    halves: &[u32],
    faces: &[u32],
    pending: usize,
) -> Result<(), Refusal>
    ensures { result ≡ heights_tested (heights_lent [] [] (ltb pending 8) false) counts
        (surface_rows (mesh_rows positions.now outs.now halves.now faces.now)
        heights.now) }
{
    heights::check_heights(
        &[],
        &[],
        pending < 8,
        false,
        counts,
        positions,
        heights,
        outs,
        halves,
        faces,
    )
}

// The same of a step, whose point is a row of one.
pub fn check_step(
    counts: Counts,
    positions: &[i32],
    heights: &[i32],
    outs: &[u32],
    halves: &[u32],
    faces: &[u32],
    nodes: usize,
    freed: usize,
    buckets: usize,
    pending: usize,
    point: Point,
    z: i32,
) -> Result<(), Refusal>
    ensures { result ≡ heights_tested (heights_lent (point_row point) (z ∷ [])
        (sweep_rows_short false (vertex_count counts (point_row point)) nodes freed buckets pending) false) counts
        (surface_rows (mesh_rows positions.now outs.now halves.now faces.now)
        heights.now) }
{
    let row = [point.x, point.y];
    let height = [z];
    let n = mesh_check::vertex_count(counts, &row);
    let short = start::sweep_rows_short(false, n, nodes, freed, buckets, pending);
    heights::check_heights(
        &row, &height, short, false, counts, positions, heights, outs, halves, faces,
    )
}

// The same of a run. `few`: its row of answers is too short.
pub fn check_run(
    points: &[i32],
    point_heights: &[i32],
    counts: Counts,
    positions: &[i32],
    heights: &[i32],
    outs: &[u32],
    halves: &[u32],
    faces: &[u32],
    nodes: usize,
    freed: usize,
    buckets: usize,
    pending: usize,
    few: bool,
) -> Result<(), Refusal>
    ensures { result ≡ heights_tested (heights_lent points.now point_heights.now
        (sweep_rows_short few (vertex_count counts points.now) nodes freed buckets pending) false) counts
        (surface_rows (mesh_rows positions.now outs.now halves.now faces.now)
        heights.now) }
{
    let n = mesh_check::vertex_count(counts, points);
    let short = start::sweep_rows_short(few, n, nodes, freed, buckets, pending);
    heights::check_heights(
        points,
        point_heights,
        short,
        false,
        counts,
        positions,
        heights,
        outs,
        halves,
        faces,
    )
}

// The height of the vertex that a step added, if there are more of them after it than before.
pub fn store_height(heights: &mut [i32], before: u32, after: u32, z: i32)
    requires { before < length heights.old }
    ensures { height_of heights.new ≡ height_stored (height_of heights.old) before after z }
{
    if before < after {
        heights::set_height(heights, before, z);
    }
}

// The height of point i for the vertex in its answer, if its fate is from `low` to `high`.
fn store_fate(
    heights: &mut [i32],
    answers: &[u64],
    point_heights: &[i32],
    low: u64,
    high: u64,
    i: u32,
)
    requires { FateRoom low high (length heights.old) (length point_heights.now) answers.now i }
    ensures { height_of heights.new ≡ cond (is_from low high (fate_word answers.now i))
        (put (height_of heights.old) (vertex_word answers.now i) (height_of point_heights.now i))
        (height_of heights.old) }
{
    if !answers::has_fate(answers, low, high, i) {
        return;
    }
    let v = answers[ANSWER_WORDS * (i as usize) + 1] as u32;
    let z = heights::height(point_heights, i);
    heights::set_height(heights, v, z);
}

// The heights of those of the first n points whose fates are from `low` to `high`, in list order, each for the vertex in its answer.
fn store_fates(
    heights: &mut [i32],
    answers: &[u64],
    point_heights: &[i32],
    low: u64,
    high: u64,
    n: u32,
)
    requires { FatesRoom low high (length heights.old) (length point_heights.now) answers.now n }
    ensures { height_of heights.new ≡ stored_from low high answers.now
        (height_of point_heights.now) (height_of heights.old) n }
{
    for i in 0..n {
        store_fate(heights, answers, point_heights, low, high, i);
    }
}

// The steps of a run were made: it is accepted, or refused 9.
pub fn is_made(finished: Result<Totals, Refusal>) -> bool
    ensures { result ≡ is_made finished }
{
    match finished {
        Ok(_) => true,
        Err(refusal) => refusal.number == 9,
    }
}

// The point at which a run of n points was refused a flip, else n.
fn place_of(n: u32, finished: Result<Totals, Refusal>) -> u32
    ensures { result ≡ place_of n finished }
{
    match finished {
        Ok(_) => n,
        Err(refusal) => refusal.place,
    }
}

// The heights after a run: of the points that its steps added, then of the skipped points that it put in, since one of these may be on a
// vertex that a later point's step added. The point that was refused a flip has the last vertex in the mesh, and no answer.
pub fn store_run(
    heights: &mut [i32],
    answers: &[u64],
    point_heights: &[i32],
    points: &[i32],
    answer: FinishAnswer,
)
    requires { StoreReady (point_count points.now) (length heights.old) (length point_heights.now) answers.now answer }
    ensures { height_of heights.new ≡ finished_heights answer answers.now
        (height_of point_heights.now) (height_of heights.old) (point_count points.now) }
{
    let finished = answer.finished;
    let counts = answer.counts;
    if !is_made(finished) {
        return;
    }
    let n = mesh_check::point_count(points) as u32;
    store_fates(heights, answers, point_heights, 1, 1, n);
    store_fates(heights, answers, point_heights, 6, 9, n);
    let place = place_of(n, finished);
    if place < n {
        let z = heights::height(point_heights, place);
        heights::set_height(heights, counts.vertices - 1, z);
    }
}
