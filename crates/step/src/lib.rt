// One step of the sweep (bulk_load.rs, `single_bulk_insertion_step`): what is decided about a point, and then done; the mesh and its ring
// go from step to step in the lent rows. And the call `step`, which makes one step on a lent mesh, whose ring it builds first. What they
// answer and leave is `step_mesh` and `step_of` of the crate `sweep`, specs/Step.antt and specs/StepCall.antt.
#![tactic(auto)]

ghost use Rattle.std.specs.Prelude.{◌≡◌, false, length};
ghost use Rattle.dcel.specs.MeshRows.{MeshRows, mesh_rows};
ghost use Rattle.ring_rows.specs.RingRows.{ring_rows};
ghost use Rattle.start.specs.StartLaws.{AcceptedSweep};
ghost use Rattle.sweep.specs.Step.{is_added};
ghost use Rattle.step.specs.StepRows.{progress_of, stepping_of, PointReady, PointAdded, StepReady, StepLeaves, SweptOnce};
ghost use Rattle.start.specs.Start.{point_row};
ghost use Rattle.sweep.specs.StepCall.{answer_from, step_checked, stepped_with, step_of};

use angle::Point2;
use apply::Entered;
use corner::Extension;
use decide::{Decision, Fate};
use math::Point;
use mesh::Counts;
use mesh_check::Refusal;
use ring_rows::{Hull, Node};
use sweep::{Answer, StepAnswer};

// The mesh's counts and its ring after a step, the point's answer, and whether a flip's pushes would have overfilled the pending list.
// A flag and no Err: counts and ring stand in either case, and the definition `Stepping` has them side by side.
#[derive(Clone, Copy)]
pub struct Progress {
    pub counts: Counts,
    pub hull: Hull,
    pub answer: Answer,
    pub full: bool,
}

// The point becomes the next vertex, and goes into the mesh as was decided.
fn add_point(
    positions: &mut [i32],
    outs: &mut [u32],
    halves: &mut [u32],
    faces: &mut [u32],
    pending: &mut [u32],
    counts: Counts,
    point: Point,
    decision: Decision,
) -> Entered
    requires { PointReady counts positions.old outs.old halves.old faces.old pending.old point decision }
    ensures { PointAdded counts positions.old positions.new
        outs.old halves.old faces.old pending.old
        outs.new halves.new faces.new point decision result }
{
    dcel::set_position(positions, counts.vertices, point);
    apply_rows::add_vertex(
        positions,
        outs,
        halves,
        faces,
        pending,
        counts,
        decision.edge,
        decision.left,
        decision.right,
    )
}

// 01's fate 1.
#[tactic(auto, unfolding(sweep::specs::Step::is_added))]
fn is_added(fate: Fate) -> bool
    ensures { result ≡ is_added fate }
{
    matches!(fate, Fate::Added(_))
}

// What a step of these parts comes to.
fn progress_of(added: Extension, hull: Hull, fate: Fate) -> Progress
    ensures { result ≡ progress_of added hull fate }
{
    Progress {
        counts: added.counts,
        hull,
        answer: Answer {
            fate,
            faces: added.faces,
            flips: added.flips,
        },
        full: added.full,
    }
}

// One step, on a mesh and its ring.
pub fn single_bulk_insertion_step(
    positions: &mut [i32],
    outs: &mut [u32],
    halves: &mut [u32],
    faces: &mut [u32],
    pending: &mut [u32],
    nodes: &mut [Node],
    freed: &mut [u32],
    buckets: &mut [u32],
    counts: Counts,
    hull: Hull,
    center: Point2,
    point: Point,
) -> Progress
    requires { StepReady counts (mesh_rows positions.old outs.old halves.old faces.old) pending.old
        (ring_rows nodes.old freed.old buckets.old) hull center point }
    ensures { StepLeaves counts
        (mesh_rows positions.old outs.old halves.old faces.old) pending.old
        (ring_rows nodes.old freed.old buckets.old) hull center point
        (mesh_rows positions.new outs.new halves.new faces.new)
        (ring_rows nodes.new freed.new buckets.new) result }
{
    let decision = decide::decide(
        positions, halves, nodes, freed, buckets, hull, counts, center, point,
    );
    let fate = decision.fate;
    if !is_added(fate) {
        let none = Extension {
            counts,
            faces: 0,
            flips: 0,
            full: false,
        };
        return progress_of(none, hull, fate);
    }
    let entered = add_point(
        positions, outs, halves, faces, pending, counts, point, decision,
    );
    let added = entered.added;
    if added.full {
        return progress_of(added, hull, fate);
    }
    let ring = hull::insert(
        nodes,
        freed,
        buckets,
        hull,
        decision.node,
        decision.startangle,
        decision.angle,
        decision.endangle,
        entered.leftedge,
        entered.rightedge,
    );
    progress_of(added, ring, fate)
}

// Rows 1 to 7 of the table for a step, with the point as a row of one. The rows that are not the mesh's are given by their lengths.
fn check_step(
    counts: Counts,
    positions: &[i32],
    outs: &[u32],
    halves: &[u32],
    faces: &[u32],
    nodes: usize,
    freed: usize,
    buckets: usize,
    pending: usize,
    center: Point2,
    point: Point,
) -> Result<(), Refusal>
    ensures { result ≡ step_checked counts
        (mesh_rows positions.now outs.now halves.now faces.now)
        nodes freed buckets pending center point }
{
    let row = [point.x, point.y];
    start::check_sweep(
        &row, false, counts, positions, outs, halves, faces, nodes, freed, buckets, pending, center,
    )
}

// The ring of an accepted mesh, one step with it, and zeros in the rows that end so.
pub fn sweep_once(
    positions: &mut [i32],
    outs: &mut [u32],
    halves: &mut [u32],
    faces: &mut [u32],
    nodes: &mut [Node],
    freed: &mut [u32],
    buckets: &mut [u32],
    pending: &mut [u32],
    counts: Counts,
    center: Point2,
    point: Point,
) -> Progress
    requires { AcceptedSweep (point_row point) false counts (mesh_rows positions.old outs.old halves.old faces.old)
        (length nodes.old) (length freed.old) (length buckets.old) (length pending.old) center }
    ensures { SweptOnce counts
        (mesh_rows positions.old outs.old halves.old faces.old)
        (ring_rows nodes.old freed.old buckets.old) pending.old
        (mesh_rows positions.new outs.new halves.new faces.new)
        (ring_rows nodes.new freed.new buckets.new) pending.new
        center point result }
{
    let hull = start::start_ring(positions, halves, faces, nodes, buckets, counts, center);
    let progress = single_bulk_insertion_step(
        positions, outs, halves, faces, pending, nodes, freed, buckets, counts, hull, center, point,
    );
    start::clear_rows(nodes, freed, buckets, pending);
    progress
}

// 9: "the pushes of a flip would overfill the pending list", with the place that the call names.
pub fn answer_of(progress: Progress, place: u32) -> StepAnswer
    ensures { (m : MeshRows) → result ≡ answer_from place (stepping_of m progress) }
{
    if progress.full {
        return StepAnswer {
            counts: progress.counts,
            stepped: Err(Refusal::at(9, place)),
        };
    }
    StepAnswer {
        counts: progress.counts,
        stepped: Ok(progress.answer),
    }
}

// The public call: one point, on a lent mesh.
pub fn step(
    counts: Counts,
    positions: &mut [i32],
    outs: &mut [u32],
    halves: &mut [u32],
    faces: &mut [u32],
    nodes: &mut [Node],
    freed: &mut [u32],
    buckets: &mut [u32],
    pending: &mut [u32],
    center: Point2,
    point: Point,
) -> StepAnswer
    ensures { stepped_with result
        (mesh_rows positions.new outs.new halves.new faces.new)
        (ring_rows nodes.new freed.new buckets.new) pending.new
        ≡ step_of counts
        (mesh_rows positions.old outs.old halves.old faces.old)
        (ring_rows nodes.old freed.old buckets.old) pending.old center point }
{
    let checked = check_step(
        counts,
        positions,
        outs,
        halves,
        faces,
        nodes.len(),
        freed.len(),
        buckets.len(),
        pending.len(),
        center,
        point,
    );
    if let Err(refusal) = checked {
        return StepAnswer {
            counts,
            stepped: Err(refusal),
        };
    }
    let progress = sweep_once(
        positions, outs, halves, faces, nodes, freed, buckets, pending, counts, center, point,
    );
    answer_of(progress, 0)
}
