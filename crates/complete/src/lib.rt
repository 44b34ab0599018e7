// The finish of a run: convexity passes, the points that its steps skipped in list order, and the closing pass, on lent rows. What it leaves
// is `complete_after` of the crate `sweep`, specs/Run.antt, whose second convexity stage changes nothing (`second-idle` of `skipped`), so
// there is none here. Where the mesh is one to walk on, each point is searched for from an edge near by, which a grid in a lent row
// answers; that changes no answer (`insert_near`), and no contract says what the row then holds. In a large mesh what a block of points
// needs is read before the first of them goes in (`prefetch`). And a mesh that will be large is tested before the first point: where no edge
// breaks the circle rule, and none at any new vertex does, there is nothing for the closing pass to flip (`skipped_settled`), so it is left out.
#![tactic(auto)]

ghost use Rattle.std.specs.Prelude.{false, ◌≡◌, ◌+◌, ◌*◌, ◌^◌, ◌<◌, ◌≤◌, T, is_some, length};
ghost use Rattle.closing.specs.Closing.{closing_pass};
ghost use Rattle.closing.specs.ClosingRows.{closing_of};
ghost use Rattle.finish.specs.FinishRows.{finishing_of};
ghost use Rattle.skipped.specs.Insert.{position_fate, position_vertex};
ghost use Rattle.sweep.specs.Run.{answer_words};
ghost use Rattle.walkable.specs.Walkable.{Walkable};
ghost use Rattle.dcel.specs.Rows.{links_of, position_of};
ghost use Rattle.circle_test.specs.GoodRows.{GoodRows};
ghost use Rattle.complete.specs.CompleteRows.{filling_of, PointNear, PointLeaves, NoneSkipped, FillReady, FillNear, FillLeaves};
ghost use Rattle.complete.specs.CompleteRows.{StillSettled};
ghost use Rattle.mesh.specs.Circle.{Settled};
ghost use Rattle.complete.specs.CompleteRows.{stopped_at, close_fill, CloseReady, CompleteReady, CompleteLeaves};

use corner::Extension;
use finish::{Ended, Totals};
use grid::{Grid, Range};
use location::PositionInTriangulation;
use math::Point;
use mesh::Counts;

// From so many vertices on a mesh is large: past what a processor's second cache holds.
const LARGE: u32 = 65536;

// From so many vertices on, at its end, a closing pass waits for memory longer than the tests take that make it needless.
const LARGE_AT_END: u32 = 262144;

// The points of a block.
const BLOCK: u32 = prefetch::BLOCK as u32;

// Where the skipped points have come to: the mesh's counts, how many points have been looked at, and whether a flip's pushes would have
// overfilled the pending list. (`full` stays a flag: `filling_of` of specs/CompleteRows.antt has it, as the finish of a run is defined.)
#[derive(Clone, Copy)]
pub struct FillEnd {
    pub counts: Counts,
    pub answered: u32,
    pub full: bool,
}

// The same, and whether it is known that no edge breaks the circle rule.
#[derive(Clone, Copy)]
pub struct Filled {
    pub end: FillEnd,
    pub settled: bool,
}

// The grid of the mesh's edges in the lent row, where the mesh is one to walk on; and whether it is known that no edge breaks the circle rule.
#[derive(Clone, Copy)]
pub struct Nearby {
    pub grid: Option<Grid>,
    pub settled: bool,
}

// What is left of a run, and what a refusal 9 names.
#[derive(Clone, Copy)]
pub struct Completed {
    pub ended: Ended,
    pub place: u32,
}

// The number of the fate of a point that was put in at a position. (A number, since the row of answers is C's.)
fn position_fate(position: PositionInTriangulation) -> u64
    ensures { result ≡ position_fate position }
{
    match position {
        PositionInTriangulation::OnVertex(_) => 9,
        PositionInTriangulation::OnEdge(_) => 7,
        PositionInTriangulation::OnFace(_) => 6,
        PositionInTriangulation::OutsideOfConvexHull(_) => 8,
    }
}

// Its vertex: the one that is there, or the next.
fn position_vertex(counts: Counts, position: PositionInTriangulation) -> u64
    ensures { result ≡ position_vertex counts position }
{
    match position {
        PositionInTriangulation::OnVertex(v) => v as u64,
        PositionInTriangulation::OnEdge(_) => counts.vertices as u64,
        PositionInTriangulation::OnFace(_) => counts.vertices as u64,
        PositionInTriangulation::OutsideOfConvexHull(_) => counts.vertices as u64,
    }
}

// How many points were skipped.
fn count_skipped(answers: &[u64], count: u32) -> u32
    requires { answer_words * count ≤ length answers.now }
    ensures { result ≡ 0 → NoneSkipped answers.now count }
{
    let mut skipped: u32 = 0;
    for i in 0..count {
        skipped += u32::from(answers::is_skipped(answers, i));
    }
    skipped
}

// One vertex of so many goes into the grid, where there are many and few points come.
fn stride(vertices: u32, skipped: u32) -> u32
    requires { 0 < skipped }
    ensures { 0 < result }
{
    (vertices / skipped / 4).max(1)
}

fn coarser(stride: u32) -> u32
    requires { 0 < stride }
    ensures { 0 < result }
{
    stride.saturating_mul(8)
}

// The grid over the mesh and the points. A sweep numbers its vertices from the centre out; so few from all over go in first, then more, and
// no cell is left with an edge from far away.
fn vertices_grid(
    positions: &[i32],
    outs: &[u32],
    cells: &mut [u32],
    vertices: u32,
    points: &[i32],
    count: u32,
    skipped: u32,
) -> Grid
    requires { (0 < vertices) × (2 * vertices ≤ length positions.now) × (2 * count ≤ length points.now) × (0 < skipped) }
{
    let first = dcel::position(positions, 0);
    let range = Range::at(first)
        .with(positions, vertices)
        .with(points, count);
    let fine = stride(vertices, skipped);
    let middle = coarser(fine);
    let empty = Grid::over(cells, range);
    let few = empty.put_vertices(cells, positions, outs, vertices, coarser(middle));
    let more = few.put_vertices(cells, positions, outs, vertices, middle);
    more.put_vertices(cells, positions, outs, vertices, fine)
}

// Whether the mesh will be a large one, and no edge breaks the circle rule.
fn is_large_and_settled(
    positions: &[i32],
    outs: &[u32],
    halves: &[u32],
    faces: &[u32],
    counts: Counts,
    skipped: u32,
) -> bool
    requires { GoodRows counts positions.now outs.now halves.now faces.now }
    ensures { T result → Settled counts
        (links_of outs.now halves.now faces.now) (position_of positions.now) }
{
    (counts.vertices >= LARGE_AT_END || skipped >= LARGE_AT_END)
        && settled_test::is_settled(positions, outs, halves, faces, counts)
}

// What the search from near by needs, and whether the closing pass may be left out, where so many points were skipped.
fn prepare(
    positions: &[i32],
    outs: &[u32],
    halves: &[u32],
    faces: &[u32],
    cells: &mut [u32],
    counts: Counts,
    points: &[i32],
    count: u32,
    skipped: u32,
) -> Nearby
    requires { GoodRows counts positions.now outs.now halves.now faces.now × (2 * count ≤ length points.now) × (0 < skipped) }
    ensures { (T (is_some result.grid) → Walkable counts
        (links_of outs.now halves.now faces.now) (position_of positions.now))
        × (T result.settled → Settled counts
        (links_of outs.now halves.now faces.now) (position_of positions.now)) }
{
    if !search_near::is_walkable(positions, outs, halves, faces, counts) {
        return Nearby {
            grid: None,
            settled: false,
        };
    }
    let settled = is_large_and_settled(positions, outs, halves, faces, counts, skipped);
    let grid = vertices_grid(
        positions,
        outs,
        cells,
        counts.vertices,
        points,
        count,
        skipped,
    );
    Nearby {
        grid: Some(grid),
        settled,
    }
}

// Point i, where it became a vertex, has an edge put into the grid: the first new one.
fn place(
    cells: &mut [u32],
    grid: Option<Grid>,
    points: &[i32],
    i: u32,
    before: Counts,
    after: Counts,
) -> Option<Grid>
    requires { 2 * i + 1 < length points.now }
    ensures { is_some result ≡ is_some grid }
{
    if after.vertices <= before.vertices {
        return grid;
    }
    let point = dcel::position(points, i);
    Some(grid?.put(cells, point, before.edges))
}

// Of so many edges one that is likely close to the point, from the grid.
fn near(cells: &[u32], grid: Option<Grid>, edges: u32, point: Point) -> u32
    requires { 0 < edges }
    ensures { result < edges }
{
    match grid {
        Some(grid) => grid.near(cells, edges, point),
        None => 0,
    }
}

// Point i, if it was skipped: it is put in, and its answer stored, unless a flip is refused.
fn fill_point(
    positions: &mut [i32],
    outs: &mut [u32],
    halves: &mut [u32],
    faces: &mut [u32],
    pending: &mut [u32],
    answers: &mut [u64],
    counts: Counts,
    points: &[i32],
    i: u32,
    cells: &[u32],
    grid: Option<Grid>,
) -> FillEnd
    requires { PointNear counts positions.old outs.old halves.old faces.old pending.old answers.old points.now i
        (is_some grid) }
    ensures { PointLeaves counts positions.old outs.old halves.old faces.old
        (length pending.old) answers.old points.now i
        positions.new outs.new halves.new faces.new answers.new result }
{
    if !answers::is_skipped(answers, i) {
        return FillEnd {
            counts,
            answered: i + 1,
            full: false,
        };
    }
    let point = dcel::position(points, i);
    let u = near(cells, grid, counts.edges, point);
    let known = grid.is_some();
    let done = insert::insert_near(
        positions, outs, halves, faces, pending, counts, point, known, u,
    );
    let added = done.added;
    if added.full {
        return FillEnd {
            counts: added.counts,
            answered: i,
            full: true,
        };
    }
    let fate = position_fate(done.position);
    let vertex = position_vertex(counts, done.position);
    answers::store_words(answers, i, fate, vertex, added.faces as u64, added.flips);
    FillEnd {
        counts: added.counts,
        answered: i + 1,
        full: false,
    }
}

// Whether it is still known that no edge breaks the circle rule, now that point i is in: it was, and the point is no new vertex, or it went
// into a triangle (fate 6) or on an edge (7) and no edge at its vertex breaks the rule.
fn is_still_settled(
    positions: &[i32],
    outs: &[u32],
    halves: &[u32],
    faces: &[u32],
    answers: &[u64],
    before: Counts,
    after: Counts,
    i: u32,
    settled: bool,
) -> bool
    requires { GoodRows after positions.now outs.now halves.now faces.now × (answer_words * i < length answers.now) }
    ensures { T result → T settled × StillSettled before after positions.now outs.now halves.now
        faces.now answers.now i }
{
    let vertex = before.vertices;
    settled
        && (after.vertices <= vertex
            || answers::has_fate(answers, 6, 7, i)
                && settled_test::is_unbroken_at(positions, outs, halves, faces, after, vertex))
}

// The numbers of those of the points from `from` up to `to` that were skipped stand first in the list then: how many there are.
fn list_skipped(answers: &[u64], from: u32, to: u32, list: &mut [u32]) -> usize
    requires { (from ≤ to) × (to ≤ from + 32) × (answer_words * to ≤ length answers.now) × (32 ≤ length list.old) }
    ensures { result ≤ 32 }
{
    let mut n: usize = 0;
    for i in from..to {
        list[n] = i;
        n += usize::from(answers::is_skipped(answers, i));
    }
    n
}

// Where point i is the first of a block, what the block's insertions will need is read. In a small mesh nothing waits for memory.
fn prefetch_block(
    positions: &[i32],
    outs: &[u32],
    halves: &[u32],
    faces: &[u32],
    answers: &[u64],
    cells: &mut [u32],
    grid: Option<Grid>,
    counts: Counts,
    points: &[i32],
    i: u32,
    count: u32,
)
    requires { (answer_words * count ≤ length answers.now) × (i ≤ count) }
{
    if counts.vertices < LARGE || i % BLOCK != 0 {
        return;
    }
    if let Some(grid) = grid {
        let mut list = [0u32; prefetch::BLOCK];
        let end = i + (count - i).min(BLOCK);
        let n = list_skipped(answers, i, end, &mut list);
        prefetch::prefetch(
            positions,
            outs,
            halves,
            faces,
            cells,
            grid,
            points,
            &list[..n],
        );
    }
}

// All skipped points, in list order, until a flip is refused.
fn fill_each(
    positions: &mut [i32],
    outs: &mut [u32],
    halves: &mut [u32],
    faces: &mut [u32],
    pending: &mut [u32],
    answers: &mut [u64],
    cells: &mut [u32],
    counts: Counts,
    points: &[i32],
    count: u32,
    near: Nearby,
) -> Filled
    requires { FillNear counts positions.old outs.old halves.old faces.old pending.old answers.old points.now count
        (is_some near.grid)
        × (T near.settled → Settled counts (links_of outs.old halves.old faces.old) (position_of positions.old)) }
    ensures { FillLeaves counts positions.old outs.old halves.old faces.old
        (length pending.old) answers.old points.now count
        positions.new outs.new halves.new faces.new answers.new result.end
        × (T result.settled → Settled result.end.counts
        (links_of outs.new halves.new faces.new) (position_of positions.new)) }
{
    let mut now = counts;
    let mut grid = near.grid;
    let mut settled = near.settled;
    for i in 0..count {
        prefetch_block(
            positions, outs, halves, faces, answers, cells, grid, now, points, i, count,
        );
        let done = fill_point(
            positions, outs, halves, faces, pending, answers, now, points, i, cells, grid,
        );
        if done.full {
            return Filled {
                end: done,
                settled: false,
            };
        }
        let after = done.counts;
        settled = is_still_settled(
            positions, outs, halves, faces, answers, now, after, i, settled,
        );
        grid = place(cells, grid, points, i, now, after);
        now = after;
    }
    Filled {
        end: FillEnd {
            counts: now,
            answered: count,
            full: false,
        },
        settled,
    }
}

// The same, where there are any.
fn fill(
    positions: &mut [i32],
    outs: &mut [u32],
    halves: &mut [u32],
    faces: &mut [u32],
    pending: &mut [u32],
    answers: &mut [u64],
    cells: &mut [u32],
    counts: Counts,
    points: &[i32],
    count: u32,
) -> Filled
    requires { FillReady counts positions.old outs.old halves.old faces.old pending.old answers.old points.now count }
    ensures { FillLeaves counts positions.old outs.old halves.old faces.old
        (length pending.old) answers.old points.now count
        positions.new outs.new halves.new faces.new answers.new result.end
        × (T result.settled → Settled result.end.counts
        (links_of outs.new halves.new faces.new) (position_of positions.new)) }
{
    let skipped = count_skipped(answers, count);
    if skipped == 0 {
        return Filled {
            end: FillEnd {
                counts,
                answered: count,
                full: false,
            },
            settled: false,
        };
    }
    let near = prepare(
        positions, outs, halves, faces, cells, counts, points, count, skipped,
    );
    fill_each(
        positions, outs, halves, faces, pending, answers, cells, counts, points, count, near,
    )
}

// After a refused flip: the mesh as it stands, with what the first convexity passes did.
fn stopped(counts: Counts, faces: u32, flips: u64, place: u32) -> Completed
    ensures { result ≡ stopped_at counts faces flips place }
{
    Completed {
        ended: Ended {
            counts,
            totals: Totals {
                faces,
                convexflips: flips,
                closingflips: 0,
            },
            full: true,
        },
        place,
    }
}

// The flips of the closing pass. Where no edge breaks the circle rule it makes none.
fn close_unsettled(
    positions: &[i32],
    outs: &mut [u32],
    halves: &mut [u32],
    faces: &mut [u32],
    counts: Counts,
    settled: bool,
) -> u64
    requires { GoodRows counts positions.now outs.old halves.old faces.old × (counts.faces ≤ 2 ^ 25)
        × (T settled → Settled counts (links_of outs.old halves.old faces.old) (position_of positions.now)) }
    ensures { closing_of outs.new halves.new faces.new result
        ≡ closing_pass counts (position_of positions.now)
        (links_of outs.old halves.old faces.old) }
{
    if settled {
        return 0;
    }
    closing::closing_pass(positions, outs, halves, faces, counts)
}

// The closing pass after the skipped points; none after a refused flip.
fn close(
    positions: &[i32],
    outs: &mut [u32],
    halves: &mut [u32],
    faces: &mut [u32],
    passed: Extension,
    filled: FillEnd,
    settled: bool,
) -> Completed
    requires { CloseReady positions.now outs.old halves.old faces.old filled
        × (T settled → Settled filled.counts (links_of outs.old halves.old faces.old) (position_of positions.now)) }
    ensures { (finishing_of outs.new halves.new faces.new result.ended
        ≡ close_fill passed.faces passed.flips
        (filling_of positions.now outs.old halves.old faces.old filled))
        × (result.place ≡ filled.answered) }
{
    let counts = filled.counts;
    let place = filled.answered;
    if filled.full {
        return stopped(counts, passed.faces, passed.flips, place);
    }
    let flips = close_unsettled(positions, outs, halves, faces, counts, settled);
    Completed {
        ended: Ended {
            counts,
            totals: Totals {
                faces: passed.faces,
                convexflips: passed.flips,
                closingflips: flips,
            },
            full: false,
        },
        place,
    }
}

// The finish of the mesh that the steps left: `answered` points have their answers, and `full` says whether a flip was refused in a step.
pub fn complete_after(
    positions: &mut [i32],
    outs: &mut [u32],
    halves: &mut [u32],
    faces: &mut [u32],
    pending: &mut [u32],
    answers: &mut [u64],
    grid: &mut [u32],
    counts: Counts,
    answered: u32,
    full: bool,
    points: &[i32],
    count: u32,
) -> Completed
    requires { CompleteReady counts full positions.old outs.old halves.old faces.old pending.old answers.old
        points.now count }
    ensures { CompleteLeaves counts answered full
        positions.old outs.old halves.old faces.old (length pending.old)
        answers.old points.now count
        positions.new outs.new halves.new faces.new answers.new result }
{
    if full {
        answers::zero_skipped(answers, 0, count);
        return stopped(counts, 0, 0, answered);
    }
    let passed = convexity::convexity(positions, outs, halves, faces, pending, counts);
    let after = passed.counts;
    if passed.full {
        answers::zero_skipped(answers, 0, count);
        return stopped(after, passed.faces, passed.flips, count);
    }
    let filled = fill(
        positions, outs, halves, faces, pending, answers, grid, after, points, count,
    );
    let end = filled.end;
    answers::zero_skipped(answers, end.answered, count);
    close(positions, outs, halves, faces, passed, end, filled.settled)
}
