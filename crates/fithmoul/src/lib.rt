// The public calls, for C, C++, Rust and Rattle: load bare points, check a mesh, locate an angle, step one point, ask what a point
// would do, commit the quote, finish a mesh, run a list of points, the volume between a mesh and a level, the area total of a mesh, and the
// side query, the area of one triangle. A mesh has a height on each vertex and a change count beside its counts. For a C compiler this page
// is include/fithmoul.h; a library exports nothing to C, so `fithmoul_c` exports these again. A call takes its arguments as numbers, and a quote as it was given, and answers a struct of numbers: what it
// answers and leaves is what a definition gives, for every input (crates `bulk_load`, `heights`, `surface`, `ask`, `commit`, `volume`,
// `area`). A slice is a pointer and a length for C. Nothing is asked of the caller but that each row is there, as long as is said, that no
// row that is written overlaps another, and that doubles are rounded to nearest and subnormal ones kept (docs/DECISIONS.md, "Who answers
// for what C cannot check?").
#![tactic(auto)]

ghost use Rattle.std.specs.Prelude.{false, ◌≡◌};
ghost use Rattle.area.specs.AreaTotal.{area_total_of};
ghost use Rattle.area.specs.SideQuery.{side_query_of};
ghost use Rattle.ask.specs.Ask.{asked_with, ask_of};
ghost use Rattle.bulk_load.specs.BulkLoad.{bulk_load_lent, loaded_with, bulk_load_of};
ghost use Rattle.bulk_load.specs.Demand3.{LoadFinished, LineLoaded};
ghost use Rattle.commit.specs.Commit.{committed_with, commit_of, run_changes};
ghost use Rattle.dcel.specs.MeshRows.{mesh_rows};
ghost use Rattle.finish.specs.Finish.{finished_with};
ghost use Rattle.heights.specs.Heights.{surface_rows, surface_checked};
ghost use Rattle.locate.specs.Locate.{located_with};
ghost use Rattle.ring_rows.specs.RingRows.{ring_rows};
ghost use Rattle.surface.specs.Surface.{surface_locate, surface_finish, surface_stepped, surface_step, surface_run_lent, surface_ran, surface_run};
ghost use Rattle.surface.specs.CarriedHeights.{CarriedHeights};
ghost use Rattle.sweep.specs.Demand3.{Demand3};
ghost use Rattle.sweep.specs.Run.{run_lent, ran_with};
ghost use Rattle.sweep.specs.StepCall.{stepped_with};
ghost use Rattle.fithmoul.specs.Results.{counted, center_at, point_at_of, reported};
ghost use Rattle.fithmoul.specs.Results.{check_result, locate_result, step_result, finish_result, run_result, volume_result};
ghost use Rattle.fithmoul.specs.Results.{ask_result, commit_result};
ghost use Rattle.fithmoul.specs.Results.{area_total_result, side_query_result};
ghost use Rattle.fithmoul.specs.Results.{bulk_load_result, load_reported};
ghost use Rattle.volume.specs.Volume.{volume_of};

use angle::Point2;
use bulk_load::BulkLoadAnswer;
use finish::FinishAnswer;
use math::Point;
use mesh::Counts;
use quote::Quote;
use ring_rows::Node;
use sweep::StepAnswer;

pub mod results;

use results::{
    AreaTotalResult, AskResult, BulkLoadResult, CheckResult, CommitResult, FinishResult,
    LocateResult, RunResult, SideQueryResult, StepResult, VolumeResult,
};

// Does a mesh keep the rules, turn left everywhere and stay in range, its heights too? Refusals 1 to 5, and 10.
#[unsafe(no_mangle)]
pub extern "C" fn fithmoul_check(
    vertices: u32,
    edges: u32,
    faces: u32,
    positions: &[i32],
    heights: &[i32],
    outs: &[u32],
    halves: &[u32],
    adjacent: &[u32],
) -> CheckResult
    ensures { result ≡ check_result (surface_checked false (counted vertices edges faces) (surface_rows
        (mesh_rows positions.now outs.now halves.now adjacent.now) heights.now)) }
{
    let counts = Counts {
        vertices,
        edges,
        faces,
    };
    CheckResult::from(heights::check_surface(
        false, counts, positions, heights, outs, halves, adjacent,
    ))
}

// The boundary edge at an angle about a centre, and the nodes passed after the first to find it. Refusals 1 to 8, and 10.
#[unsafe(no_mangle)]
pub extern "C" fn fithmoul_locate(
    vertices: u32,
    edges: u32,
    faces: u32,
    positions: &[i32],
    heights: &[i32],
    outs: &[u32],
    halves: &[u32],
    adjacent: &[u32],
    nodes: &mut [Node],
    freed: &mut [u32],
    buckets: &mut [u32],
    center_x: f64,
    center_y: f64,
    angle: f64,
) -> LocateResult
    ensures { let w = surface_locate (counted vertices edges faces) (surface_rows
        (mesh_rows positions.now outs.now halves.now adjacent.now) heights.now)
        (ring_rows nodes.old freed.old buckets.old) (center_at center_x center_y) angle in
        (result ≡ locate_result w.answer)
        × (located_with w.answer (ring_rows nodes.new freed.new buckets.new) ≡ w) }
{
    let counts = Counts {
        vertices,
        edges,
        faces,
    };
    let center = Point2 {
        x: center_x,
        y: center_y,
    };
    let checked = surface_rows::check_locate(
        counts,
        positions,
        heights,
        outs,
        halves,
        adjacent,
        nodes.len(),
        freed.len(),
        buckets.len(),
    );
    if let Err(refusal) = checked {
        return LocateResult::from(Err(refusal));
    }
    let located = locate::locate(
        counts, positions, outs, halves, adjacent, nodes, freed, buckets, center, angle,
    );
    LocateResult::from(located)
}

// One point of the sweep about a centre, on a mesh, with its height. Refusals 1 to 7, 9 and 10.
#[unsafe(no_mangle)]
pub extern "C" fn fithmoul_step(
    vertices: u32,
    edges: u32,
    faces: u32,
    positions: &mut [i32],
    heights: &mut [i32],
    outs: &mut [u32],
    halves: &mut [u32],
    adjacent: &mut [u32],
    nodes: &mut [Node],
    freed: &mut [u32],
    buckets: &mut [u32],
    pending: &mut [u32],
    center_x: f64,
    center_y: f64,
    x: i32,
    y: i32,
    z: i32,
) -> StepResult
    ensures { let w = surface_step (counted vertices edges faces) (surface_rows
        (mesh_rows positions.old outs.old halves.old adjacent.old) heights.old)
        (ring_rows nodes.old freed.old buckets.old) pending.old
        (center_at center_x center_y) (point_at_of x y) z in
        (result ≡ step_result w.call.answer)
        × (surface_stepped (stepped_with w.call.answer
        (mesh_rows positions.new outs.new halves.new adjacent.new)
        (ring_rows nodes.new freed.new buckets.new) pending.new) heights.new ≡ w) }
{
    let counts = Counts {
        vertices,
        edges,
        faces,
    };
    let center = Point2 {
        x: center_x,
        y: center_y,
    };
    let point = Point { x, y };
    let checked = surface_rows::check_step(
        counts,
        positions,
        heights,
        outs,
        halves,
        adjacent,
        nodes.len(),
        freed.len(),
        buckets.len(),
        pending.len(),
        point,
        z,
    );
    if let Err(refusal) = checked {
        return StepResult::from(StepAnswer {
            counts,
            stepped: Err(refusal),
        });
    }
    let answer = step::step(
        counts, positions, outs, halves, adjacent, nodes, freed, buckets, pending, center, point,
    );
    surface_rows::store_height(heights, vertices, answer.counts.vertices, z);
    StepResult::from(answer)
}

// What a point would do: the fate and the faces of the step's answer, with the change count and the point, for a commit. The mesh is left
// alone. Refusals 1 to 7, 10 and 12.
#[unsafe(no_mangle)]
pub extern "C" fn fithmoul_ask(
    vertices: u32,
    edges: u32,
    faces: u32,
    changes: u32,
    positions: &[i32],
    heights: &[i32],
    outs: &[u32],
    halves: &[u32],
    adjacent: &[u32],
    nodes: &mut [Node],
    freed: &mut [u32],
    buckets: &mut [u32],
    center_x: f64,
    center_y: f64,
    x: i32,
    y: i32,
    z: i32,
) -> AskResult
    ensures { let s = surface_rows
        (mesh_rows positions.now outs.now halves.now adjacent.now) heights.now in
        let w = ask_of changes (counted vertices edges faces) s (ring_rows nodes.old freed.old buckets.old)
        (center_at center_x center_y) (point_at_of x y) z in
        (result ≡ ask_result w.answer)
        × (asked_with w.answer s (ring_rows nodes.new freed.new buckets.new) ≡ w) }
{
    let counts = Counts {
        vertices,
        edges,
        faces,
    };
    let center = Point2 {
        x: center_x,
        y: center_y,
    };
    let point = Point { x, y };
    let asked = ask_rows::ask(
        changes,
        counts,
        positions,
        heights,
        outs,
        halves,
        adjacent,
        nodes.len(),
        freed.len(),
        buckets.len(),
        center,
        point,
        z,
    );
    if let Err(refusal) = asked {
        return AskResult::from(Err(refusal));
    }
    locate::clear_ring(nodes, freed, buckets);
    AskResult::from(asked)
}

// The step that a quote told of, if it still would be that. The change count rises where a vertex is added or a flip is refused. Refusals 1
// to 7, 10, 11, 12 and 9.
#[unsafe(no_mangle)]
pub extern "C" fn fithmoul_commit(
    vertices: u32,
    edges: u32,
    faces: u32,
    changes: u32,
    positions: &mut [i32],
    heights: &mut [i32],
    outs: &mut [u32],
    halves: &mut [u32],
    adjacent: &mut [u32],
    nodes: &mut [Node],
    freed: &mut [u32],
    buckets: &mut [u32],
    pending: &mut [u32],
    center_x: f64,
    center_y: f64,
    x: i32,
    y: i32,
    z: i32,
    quote: Quote,
) -> CommitResult
    ensures { let w = commit_of changes (counted vertices edges faces) (surface_rows
        (mesh_rows positions.old outs.old halves.old adjacent.old) heights.old)
        (ring_rows nodes.old freed.old buckets.old) pending.old
        (center_at center_x center_y) (point_at_of x y) z quote in
        (result ≡ commit_result w.changes w.step.call.answer)
        × (committed_with (surface_stepped (stepped_with w.step.call.answer
        (mesh_rows positions.new outs.new halves.new adjacent.new)
        (ring_rows nodes.new freed.new buckets.new) pending.new) heights.new)
        w.changes ≡ w) }
{
    let counts = Counts {
        vertices,
        edges,
        faces,
    };
    let center = Point2 {
        x: center_x,
        y: center_y,
    };
    let point = Point { x, y };
    let checked = commit::check_commit(
        changes,
        counts,
        positions,
        heights,
        outs,
        halves,
        adjacent,
        nodes.len(),
        freed.len(),
        buckets.len(),
        pending.len(),
        center,
        point,
        z,
        quote,
    );
    if let Err(refusal) = checked {
        return results::commit_refused(changes, counts, refusal);
    }
    let progress = step::sweep_once(
        positions, outs, halves, adjacent, nodes, freed, buckets, pending, counts, center, point,
    );
    let answer = step::answer_of(progress, 0);
    surface_rows::store_height(heights, vertices, answer.counts.vertices, z);
    results::commit_result(changes, answer)
}

// Convexity passes until one adds no face, then the closing pass, on a mesh. Refusals 1 to 5, 9 and 10.
#[unsafe(no_mangle)]
pub extern "C" fn fithmoul_finish(
    vertices: u32,
    edges: u32,
    faces: u32,
    positions: &[i32],
    heights: &[i32],
    outs: &mut [u32],
    halves: &mut [u32],
    adjacent: &mut [u32],
    pending: &mut [u32],
) -> FinishResult
    ensures { let w = surface_finish (counted vertices edges faces) (surface_rows
        (mesh_rows positions.now outs.old halves.old adjacent.old) heights.now)
        pending.old in
        (result ≡ finish_result w.answer)
        × (finished_with w.answer (mesh_rows positions.now outs.new halves.new adjacent.new)
        pending.new ≡ w) }
{
    let counts = Counts {
        vertices,
        edges,
        faces,
    };
    let checked = surface_rows::check_finish(
        counts,
        positions,
        heights,
        outs,
        halves,
        adjacent,
        pending.len(),
    );
    if let Err(refusal) = checked {
        return FinishResult::from(FinishAnswer {
            counts,
            finished: Err(refusal),
        });
    }
    let answer = finish::finish(counts, positions, outs, halves, adjacent, pending);
    FinishResult::from(answer)
}

// A seed mesh, a centre and a list of points with their heights, to a finished mesh: all steps in list order, then the finish. It starts the
// change count at 0. Refusals 1 to 7, 9 and 10.
#[unsafe(no_mangle)]
pub extern "C" fn fithmoul_run(
    vertices: u32,
    edges: u32,
    faces: u32,
    changes: u32,
    positions: &mut [i32],
    heights: &mut [i32],
    outs: &mut [u32],
    halves: &mut [u32],
    adjacent: &mut [u32],
    nodes: &mut [Node],
    freed: &mut [u32],
    buckets: &mut [u32],
    pending: &mut [u32],
    answers: &mut [u64],
    center_x: f64,
    center_y: f64,
    points: &[i32],
    point_heights: &[i32],
) -> RunResult
    ensures { let l = run_lent (counted vertices edges faces)
        (mesh_rows positions.old outs.old halves.old adjacent.old)
        (ring_rows nodes.old freed.old buckets.old) pending.old answers.old
        (center_at center_x center_y) points.now in
        let g = surface_run_lent l heights.old point_heights.now in let w = surface_run g in
        (result ≡ run_result (run_changes changes w.call.answer.finished) w.call.answer)
        × (surface_ran (ran_with w.call.answer
        (mesh_rows positions.new outs.new halves.new adjacent.new)
        (ring_rows nodes.new freed.new buckets.new) pending.new answers.new)
        heights.new ≡ w)
        × (result.refusal ≡ 0 → Demand3 l w.call (reported result) × CarriedHeights g w) }
{
    let counts = Counts {
        vertices,
        edges,
        faces,
    };
    let center = Point2 {
        x: center_x,
        y: center_y,
    };
    let few = answers::answers_short(answers.len(), points);
    let checked = surface_rows::check_run(
        points,
        point_heights,
        counts,
        positions,
        heights,
        outs,
        halves,
        adjacent,
        nodes.len(),
        freed.len(),
        buckets.len(),
        pending.len(),
        few,
    );
    if let Err(refusal) = checked {
        return results::run_refused(changes, counts, refusal);
    }
    let answer = run::run(
        counts, positions, outs, halves, adjacent, nodes, freed, buckets, pending, answers, center,
        points,
    );
    surface_rows::store_run(heights, answers, point_heights, points, answer);
    results::run_result(changes, answer)
}

// A list of bare points, to a finished mesh, or to a line where all of them lie on one. The seed grows from the front of the list, and a
// run takes the rest. Refusals 1 (over 1,000,000 points), 2, 3, 9 and 10. It starts the change count at 0.
#[unsafe(no_mangle)]
pub extern "C" fn fithmoul_bulk_load(
    positions: &mut [i32],
    heights: &mut [i32],
    outs: &mut [u32],
    halves: &mut [u32],
    adjacent: &mut [u32],
    nodes: &mut [Node],
    freed: &mut [u32],
    buckets: &mut [u32],
    pending: &mut [u32],
    answers: &mut [u64],
    points: &[i32],
    point_heights: &[i32],
) -> BulkLoadResult
    ensures { let l = bulk_load_lent
        (mesh_rows positions.old outs.old halves.old adjacent.old) heights.old
        (ring_rows nodes.old freed.old buckets.old) pending.old answers.old
        points.now point_heights.now in let w = bulk_load_of l in
        (result ≡ bulk_load_result w.answer)
        × (loaded_with w.answer
        (mesh_rows positions.new outs.new halves.new adjacent.new) heights.new
        (ring_rows nodes.new freed.new buckets.new) pending.new answers.new ≡ w)
        × (result.refusal ≡ 0 → result.line ≡ 0 → LoadFinished l w (load_reported result))
        × (result.line ≡ 1 → LineLoaded l w) }
{
    let checked = bulk_load_check::check_bulk_load(
        points,
        point_heights,
        positions.len(),
        heights.len(),
        outs.len(),
        halves.len(),
        adjacent.len(),
        nodes.len(),
        freed.len(),
        buckets.len(),
        pending.len(),
        answers.len(),
    );
    if let Err(refusal) = checked {
        return BulkLoadResult::from(BulkLoadAnswer {
            finish: FinishAnswer {
                counts: Counts {
                    vertices: 0,
                    edges: 0,
                    faces: 0,
                },
                finished: Err(refusal),
            },
            line: false,
        });
    }
    let answer = bulk_load_rows::load(
        positions,
        heights,
        outs,
        halves,
        adjacent,
        nodes,
        freed,
        buckets,
        pending,
        answers,
        points,
        point_heights,
    );
    BulkLoadResult::from(answer)
}

// The volume between a mesh and a level: six times it, exactly, and in whole cubic metres, positive where the mesh is above. Refusals 1
// to 5, and 10.
#[unsafe(no_mangle)]
pub extern "C" fn fithmoul_volume(
    vertices: u32,
    edges: u32,
    faces: u32,
    positions: &[i32],
    heights: &[i32],
    outs: &[u32],
    halves: &[u32],
    adjacent: &[u32],
    level: i32,
) -> VolumeResult
    ensures { result ≡ volume_result (volume_of (counted vertices edges faces) (surface_rows
        (mesh_rows positions.now outs.now halves.now adjacent.now)
        heights.now) level) }
{
    let counts = Counts {
        vertices,
        edges,
        faces,
    };
    VolumeResult::from(volume::volume(counts, positions, heights, outs, halves, adjacent, level))
}

// The doubled areas of all triangles of a mesh, in total, exactly. Refusals 1 to 5, and 10.
#[unsafe(no_mangle)]
pub extern "C" fn fithmoul_area_total(
    vertices: u32,
    edges: u32,
    faces: u32,
    positions: &[i32],
    heights: &[i32],
    outs: &[u32],
    halves: &[u32],
    adjacent: &[u32],
) -> AreaTotalResult
    ensures { result ≡ area_total_result (area_total_of (counted vertices edges faces) (surface_rows
        (mesh_rows positions.now outs.now halves.now adjacent.now) heights.now)) }
{
    let counts = Counts {
        vertices,
        edges,
        faces,
    };
    AreaTotalResult::from(area::area_total(counts, positions, heights, outs, halves, adjacent))
}

// Twice the signed area of the triangle p1 p2 q, exactly: positive where q lies left of the line from p1 to p2. Refusal 3.
#[unsafe(no_mangle)]
pub extern "C" fn fithmoul_side_query(
    p1x: i32,
    p1y: i32,
    p2x: i32,
    p2y: i32,
    qx: i32,
    qy: i32,
) -> SideQueryResult
    ensures { result ≡ side_query_result (side_query_of (point_at_of p1x p1y) (point_at_of p2x p2y) (point_at_of qx qy)) }
{
    let p1 = Point { x: p1x, y: p1y };
    let p2 = Point { x: p2x, y: p2y };
    let q = Point { x: qx, y: qy };
    SideQueryResult::from(area::side_query(p1, p2, q))
}
