// A run stopped after its last step, and one pass of `fix_convexity` by itself: the two meshes that the Rust is compared by. For the
// comparison alone; no call needs them. Both take anything that is lent, as the calls do: what the checks of a run, or of a finish, refuse
// is left as it was.
#![tactic(auto)]

ghost use Rattle.std.specs.Prelude.{◌≡◌};
ghost use Rattle.corner.specs.CornerRows.{extended_of};
ghost use Rattle.dcel.specs.MeshRows.{mesh_rows};
ghost use Rattle.mesh_check.specs.Check.{point_count};
ghost use Rattle.ring_rows.specs.RingRows.{ring_rows};
ghost use Rattle.steps.specs.StepsRows.{sweeping_of};
ghost use Rattle.sweep.specs.Run.{run_lent, run_checked, sweep_of};
ghost use Rattle.stages.specs.Stages.{stepped_of, passed_of};

use angle::Point2;
use corner::Extension;
use mesh::Counts;
use ring_rows::Node;
use steps::SweepEnd;

// What the checks accept.
fn steps_accepted(
    counts: Counts,
    positions: &mut [i32],
    outs: &mut [u32],
    halves: &mut [u32],
    faces: &mut [u32],
    nodes: &mut [Node],
    freed: &mut [u32],
    buckets: &mut [u32],
    pending: &mut [u32],
    answers: &mut [u64],
    center: Point2,
    points: &[i32],
) -> SweepEnd
    requires { run_checked (run_lent counts (mesh_rows positions.old outs.old halves.old faces.old)
        (ring_rows nodes.old freed.old buckets.old) pending.old answers.old center points.now) ≡ Ok tt }
    ensures { sweeping_of (mesh_rows positions.new outs.new halves.new faces.new) result
        ≡ sweep_of (run_lent counts
        (mesh_rows positions.old outs.old halves.old faces.old)
        (ring_rows nodes.old freed.old buckets.old) pending.old answers.old
        center points.now) (point_count points.now) }
{
    let count = mesh_check::point_count(points) as u32;
    let hull = start::start_ring(positions, halves, faces, nodes, buckets, counts, center);
    steps::sweep(
        positions, outs, halves, faces, pending, nodes, freed, buckets, answers, counts, hull,
        center, points, count,
    )
}

// All steps of a run, and no finish. The ring's rows and pending are left as the last step has them.
pub fn steps(
    counts: Counts,
    positions: &mut [i32],
    outs: &mut [u32],
    halves: &mut [u32],
    faces: &mut [u32],
    nodes: &mut [Node],
    freed: &mut [u32],
    buckets: &mut [u32],
    pending: &mut [u32],
    answers: &mut [u64],
    center: Point2,
    points: &[i32],
) -> SweepEnd
    ensures { sweeping_of (mesh_rows positions.new outs.new halves.new faces.new) result
        ≡ stepped_of (run_lent counts
        (mesh_rows positions.old outs.old halves.old faces.old)
        (ring_rows nodes.old freed.old buckets.old) pending.old answers.old
        center points.now) }
{
    let short = answers::answers_short(answers.len(), points);
    match start::check_sweep(
        points,
        short,
        counts,
        positions,
        outs,
        halves,
        faces,
        nodes.len(),
        freed.len(),
        buckets.len(),
        pending.len(),
        center,
    ) {
        Err(_) => SweepEnd {
            counts,
            answered: 0,
            full: false,
        },
        Ok(()) => steps_accepted(
            counts, positions, outs, halves, faces, nodes, freed, buckets, pending, answers,
            center, points,
        ),
    }
}

// One pass of `fix_convexity` on a mesh.
pub fn pass(
    counts: Counts,
    positions: &[i32],
    outs: &mut [u32],
    halves: &mut [u32],
    faces: &mut [u32],
    pending: &mut [u32],
) -> Extension
    ensures { extended_of outs.new halves.new faces.new result
        ≡ passed_of counts (mesh_rows positions.now outs.old halves.old faces.old)
        pending.old }
{
    let added = Extension {
        counts,
        faces: 0,
        flips: 0,
        full: false,
    };
    match finish::check_seed(counts, positions, outs, halves, faces, pending) {
        Err(_) => added,
        Ok(()) => { convexity::fix_convexity(positions, outs, halves, faces, pending, added) }
    }
}
