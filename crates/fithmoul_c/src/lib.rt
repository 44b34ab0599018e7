// The calls of `fithmoul` under their own names for C, C++ and Rust, by libfithmoul.a: each is the call of that name, with its contract
// again word for word. What they do, and what is asked of a caller, stands at `fithmoul`; for a C compiler this page is include/fithmoul.h.
#![tactic(auto)]

ghost use Rattle.std.specs.Prelude.{false, ◌≡◌};
ghost use Rattle.area.specs.AreaTotal.{area_total_of};
ghost use Rattle.area.specs.SideQuery.{side_query_of};
ghost use Rattle.ask.specs.Ask.{asked_with, ask_of};
ghost use Rattle.bulk_load.specs.BulkLoad.{bulk_load_lent, loaded_with, bulk_load_of};
ghost use Rattle.bulk_load.specs.Demand3.{LoadFinished, LineLoaded};
ghost use Rattle.commit.specs.Commit.{committed_with, commit_of, run_changes};
ghost use Rattle.dcel.specs.MeshRows.{mesh_rows};
ghost use Rattle.finish.specs.Finish.{finished_with};
ghost use Rattle.heights.specs.Heights.{surface_rows, surface_checked};
ghost use Rattle.locate.specs.Locate.{located_with};
ghost use Rattle.ring_rows.specs.RingRows.{ring_rows};
ghost use Rattle.surface.specs.Surface.{surface_locate, surface_finish, surface_stepped, surface_step, surface_run_lent, surface_ran, surface_run};
ghost use Rattle.surface.specs.CarriedHeights.{CarriedHeights};
ghost use Rattle.sweep.specs.Demand3.{Demand3};
ghost use Rattle.sweep.specs.Run.{run_lent, ran_with};
ghost use Rattle.sweep.specs.StepCall.{stepped_with};
ghost use Rattle.fithmoul.specs.Results.{counted, center_at, point_at_of, reported};
ghost use Rattle.fithmoul.specs.Results.{check_result, locate_result, step_result, finish_result, run_result, volume_result};
ghost use Rattle.fithmoul.specs.Results.{ask_result, commit_result};
ghost use Rattle.fithmoul.specs.Results.{area_total_result, side_query_result};
ghost use Rattle.fithmoul.specs.Results.{bulk_load_result, load_reported};
ghost use Rattle.volume.specs.Volume.{volume_of};

use fithmoul::results::{
    AreaTotalResult, AskResult, BulkLoadResult, CheckResult, CommitResult, FinishResult,
    LocateResult, RunResult, SideQueryResult, StepResult, VolumeResult,
};
use quote::Quote;
use ring_rows::Node;

#[unsafe(no_mangle)]
pub extern "C" fn fithmoul_check(
    vertices: u32,
    edges: u32,
    faces: u32,
    positions: &[i32],
    heights: &[i32],
    outs: &[u32],
    halves: &[u32],
    adjacent: &[u32],
) -> CheckResult
    ensures { result ≡ check_result (surface_checked false (counted vertices edges faces) (surface_rows
        (mesh_rows positions.now outs.now halves.now adjacent.now) heights.now)) }
{
    fithmoul::fithmoul_check(
        vertices, edges, faces, positions, heights, outs, halves, adjacent,
    )
}

#[unsafe(no_mangle)]
pub extern "C" fn fithmoul_locate(
    vertices: u32,
    edges: u32,
    faces: u32,
    positions: &[i32],
    heights: &[i32],
    outs: &[u32],
    halves: &[u32],
    adjacent: &[u32],
    nodes: &mut [Node],
    freed: &mut [u32],
    buckets: &mut [u32],
    center_x: f64,
    center_y: f64,
    angle: f64,
) -> LocateResult
    ensures { let w = surface_locate (counted vertices edges faces) (surface_rows
        (mesh_rows positions.now outs.now halves.now adjacent.now) heights.now)
        (ring_rows nodes.old freed.old buckets.old) (center_at center_x center_y) angle in
        (result ≡ locate_result w.answer)
        × (located_with w.answer (ring_rows nodes.new freed.new buckets.new) ≡ w) }
{
    fithmoul::fithmoul_locate(
        vertices, edges, faces, positions, heights, outs, halves, adjacent, nodes, freed, buckets,
        center_x, center_y, angle,
    )
}

#[unsafe(no_mangle)]
pub extern "C" fn fithmoul_step(
    vertices: u32,
    edges: u32,
    faces: u32,
    positions: &mut [i32],
    heights: &mut [i32],
    outs: &mut [u32],
    halves: &mut [u32],
    adjacent: &mut [u32],
    nodes: &mut [Node],
    freed: &mut [u32],
    buckets: &mut [u32],
    pending: &mut [u32],
    center_x: f64,
    center_y: f64,
    x: i32,
    y: i32,
    z: i32,
) -> StepResult
    ensures { let w = surface_step (counted vertices edges faces) (surface_rows
        (mesh_rows positions.old outs.old halves.old adjacent.old) heights.old)
        (ring_rows nodes.old freed.old buckets.old) pending.old
        (center_at center_x center_y) (point_at_of x y) z in
        (result ≡ step_result w.call.answer)
        × (surface_stepped (stepped_with w.call.answer
        (mesh_rows positions.new outs.new halves.new adjacent.new)
        (ring_rows nodes.new freed.new buckets.new) pending.new) heights.new ≡ w) }
{
    fithmoul::fithmoul_step(
        vertices, edges, faces, positions, heights, outs, halves, adjacent, nodes, freed, buckets,
        pending, center_x, center_y, x, y, z,
    )
}

#[unsafe(no_mangle)]
pub extern "C" fn fithmoul_ask(
    vertices: u32,
    edges: u32,
    faces: u32,
    changes: u32,
    positions: &[i32],
    heights: &[i32],
    outs: &[u32],
    halves: &[u32],
    adjacent: &[u32],
    nodes: &mut [Node],
    freed: &mut [u32],
    buckets: &mut [u32],
    center_x: f64,
    center_y: f64,
    x: i32,
    y: i32,
    z: i32,
) -> AskResult
    ensures { let s = surface_rows
        (mesh_rows positions.now outs.now halves.now adjacent.now) heights.now in
        let w = ask_of changes (counted vertices edges faces) s (ring_rows nodes.old freed.old buckets.old)
        (center_at center_x center_y) (point_at_of x y) z in
        (result ≡ ask_result w.answer)
        × (asked_with w.answer s (ring_rows nodes.new freed.new buckets.new) ≡ w) }
{
    fithmoul::fithmoul_ask(
        vertices, edges, faces, changes, positions, heights, outs, halves, adjacent, nodes, freed,
        buckets, center_x, center_y, x, y, z,
    )
}

#[unsafe(no_mangle)]
pub extern "C" fn fithmoul_commit(
    vertices: u32,
    edges: u32,
    faces: u32,
    changes: u32,
    positions: &mut [i32],
    heights: &mut [i32],
    outs: &mut [u32],
    halves: &mut [u32],
    adjacent: &mut [u32],
    nodes: &mut [Node],
    freed: &mut [u32],
    buckets: &mut [u32],
    pending: &mut [u32],
    center_x: f64,
    center_y: f64,
    x: i32,
    y: i32,
    z: i32,
    quote: Quote,
) -> CommitResult
    ensures { let w = commit_of changes (counted vertices edges faces) (surface_rows
        (mesh_rows positions.old outs.old halves.old adjacent.old) heights.old)
        (ring_rows nodes.old freed.old buckets.old) pending.old
        (center_at center_x center_y) (point_at_of x y) z quote in
        (result ≡ commit_result w.changes w.step.call.answer)
        × (committed_with (surface_stepped (stepped_with w.step.call.answer
        (mesh_rows positions.new outs.new halves.new adjacent.new)
        (ring_rows nodes.new freed.new buckets.new) pending.new) heights.new)
        w.changes ≡ w) }
{
    fithmoul::fithmoul_commit(
        vertices, edges, faces, changes, positions, heights, outs, halves, adjacent, nodes, freed,
        buckets, pending, center_x, center_y, x, y, z, quote,
    )
}

#[unsafe(no_mangle)]
pub extern "C" fn fithmoul_finish(
    vertices: u32,
    edges: u32,
    faces: u32,
    positions: &[i32],
    heights: &[i32],
    outs: &mut [u32],
    halves: &mut [u32],
    adjacent: &mut [u32],
    pending: &mut [u32],
) -> FinishResult
    ensures { let w = surface_finish (counted vertices edges faces) (surface_rows
        (mesh_rows positions.now outs.old halves.old adjacent.old) heights.now)
        pending.old in
        (result ≡ finish_result w.answer)
        × (finished_with w.answer (mesh_rows positions.now outs.new halves.new adjacent.new)
        pending.new ≡ w) }
{
    fithmoul::fithmoul_finish(
        vertices, edges, faces, positions, heights, outs, halves, adjacent, pending,
    )
}

#[unsafe(no_mangle)]
pub extern "C" fn fithmoul_run(
    vertices: u32,
    edges: u32,
    faces: u32,
    changes: u32,
    positions: &mut [i32],
    heights: &mut [i32],
    outs: &mut [u32],
    halves: &mut [u32],
    adjacent: &mut [u32],
    nodes: &mut [Node],
    freed: &mut [u32],
    buckets: &mut [u32],
    pending: &mut [u32],
    answers: &mut [u64],
    center_x: f64,
    center_y: f64,
    points: &[i32],
    point_heights: &[i32],
) -> RunResult
    ensures { let l = run_lent (counted vertices edges faces)
        (mesh_rows positions.old outs.old halves.old adjacent.old)
        (ring_rows nodes.old freed.old buckets.old) pending.old answers.old
        (center_at center_x center_y) points.now in
        let g = surface_run_lent l heights.old point_heights.now in let w = surface_run g in
        (result ≡ run_result (run_changes changes w.call.answer.finished) w.call.answer)
        × (surface_ran (ran_with w.call.answer
        (mesh_rows positions.new outs.new halves.new adjacent.new)
        (ring_rows nodes.new freed.new buckets.new) pending.new answers.new)
        heights.new ≡ w)
        × (result.refusal ≡ 0 → Demand3 l w.call (reported result) × CarriedHeights g w) }
{
    fithmoul::fithmoul_run(
        vertices,
        edges,
        faces,
        changes,
        positions,
        heights,
        outs,
        halves,
        adjacent,
        nodes,
        freed,
        buckets,
        pending,
        answers,
        center_x,
        center_y,
        points,
        point_heights,
    )
}

#[unsafe(no_mangle)]
pub extern "C" fn fithmoul_bulk_load(
    positions: &mut [i32],
    heights: &mut [i32],
    outs: &mut [u32],
    halves: &mut [u32],
    adjacent: &mut [u32],
    nodes: &mut [Node],
    freed: &mut [u32],
    buckets: &mut [u32],
    pending: &mut [u32],
    answers: &mut [u64],
    points: &[i32],
    point_heights: &[i32],
) -> BulkLoadResult
    ensures { let l = bulk_load_lent
        (mesh_rows positions.old outs.old halves.old adjacent.old) heights.old
        (ring_rows nodes.old freed.old buckets.old) pending.old answers.old
        points.now point_heights.now in let w = bulk_load_of l in
        (result ≡ bulk_load_result w.answer)
        × (loaded_with w.answer
        (mesh_rows positions.new outs.new halves.new adjacent.new) heights.new
        (ring_rows nodes.new freed.new buckets.new) pending.new answers.new ≡ w)
        × (result.refusal ≡ 0 → result.line ≡ 0 → LoadFinished l w (load_reported result))
        × (result.line ≡ 1 → LineLoaded l w) }
{
    fithmoul::fithmoul_bulk_load(
        positions,
        heights,
        outs,
        halves,
        adjacent,
        nodes,
        freed,
        buckets,
        pending,
        answers,
        points,
        point_heights,
    )
}

#[unsafe(no_mangle)]
pub extern "C" fn fithmoul_volume(
    vertices: u32,
    edges: u32,
    faces: u32,
    positions: &[i32],
    heights: &[i32],
    outs: &[u32],
    halves: &[u32],
    adjacent: &[u32],
    level: i32,
) -> VolumeResult
    ensures { result ≡ volume_result (volume_of (counted vertices edges faces) (surface_rows
        (mesh_rows positions.now outs.now halves.now adjacent.now)
        heights.now) level) }
{
    fithmoul::fithmoul_volume(
        vertices, edges, faces, positions, heights, outs, halves, adjacent, level,
    )
}

#[unsafe(no_mangle)]
pub extern "C" fn fithmoul_area_total(
    vertices: u32,
    edges: u32,
    faces: u32,
    positions: &[i32],
    heights: &[i32],
    outs: &[u32],
    halves: &[u32],
    adjacent: &[u32],
) -> AreaTotalResult
    ensures { result ≡ area_total_result (area_total_of (counted vertices edges faces) (surface_rows
        (mesh_rows positions.now outs.now halves.now adjacent.now) heights.now)) }
{
    fithmoul::fithmoul_area_total(
        vertices, edges, faces, positions, heights, outs, halves, adjacent,
    )
}

#[unsafe(no_mangle)]
pub extern "C" fn fithmoul_side_query(
    p1x: i32,
    p1y: i32,
    p2x: i32,
    p2y: i32,
    qx: i32,
    qy: i32,
) -> SideQueryResult
    ensures { result ≡ side_query_result (side_query_of (point_at_of p1x p1y) (point_at_of p2x p2y) (point_at_of qx qy)) }
{
    fithmoul::fithmoul_side_query(p1x, p1y, p2x, p2y, qx, qy)
}
