// Refusals 1, 2, 3 and 10 of a bulk load: how many points there are, whether every row is long enough for them, and whether each point and
// each height is in range. Nothing is written. The rows that are not looked into are given by their lengths. What each function answers is
// an equation with a definition of the crate `bulk_load` or of `specs/Lent.antt`.
#![tactic(auto)]

ghost use Rattle.std.specs.Prelude.{◌≡◌, ◌*◌, ◌≤◌, length};
ghost use Rattle.bulk_load.specs.BulkLoad.{BulkLoadLent, bulk_load_checked};
ghost use Rattle.mesh_check.specs.Check.{refused};
ghost use Rattle.bulk_load_check.specs.Lent.{LentBy, surface_short, load_short, points_checked};

use mesh_check::Refusal;
use sweep::ANSWER_WORDS;

// The row of n points, one of the mesh's, or one of the heights is too short.
#[tactic(auto, unfolding(crate::specs::Lent::surface_short))]
fn surface_short(
    n: usize,
    points: usize,
    point_heights: usize,
    positions: usize,
    heights: usize,
    outs: usize,
    halves: usize,
    faces: usize,
) -> bool
    requires { n ≤ 1000000 }
    ensures { result ≡ surface_short n points point_heights positions heights outs halves faces }
{
    points < 2 * n
        || mesh_check_rows::mesh_rows_short(n, positions, outs, halves, faces)
        || heights < n
        || point_heights < n
}

// One of the rows is too short for n points.
#[tactic(auto, unfolding(crate::specs::Lent::load_short))]
fn load_short(
    n: usize,
    points: usize,
    point_heights: usize,
    positions: usize,
    heights: usize,
    outs: usize,
    halves: usize,
    faces: usize,
    nodes: usize,
    freed: usize,
    buckets: usize,
    pending: usize,
    answers: usize,
) -> bool
    requires { n ≤ 1000000 }
    ensures { result ≡ load_short n points point_heights positions heights outs halves faces nodes freed buckets pending answers }
{
    let few = answers < ANSWER_WORDS * n;
    start::sweep_rows_short(few, n, nodes, freed, buckets, pending)
        || surface_short(
            n,
            points,
            point_heights,
            positions,
            heights,
            outs,
            halves,
            faces,
        )
}

// Rows 3 and 10 of the table, for n points and their heights.
fn check_points(points: &[i32], point_heights: &[i32], n: u32) -> Result<(), Refusal>
    requires { (2 * n ≤ length points.now) × (n ≤ length point_heights.now) }
    ensures { result ≡ points_checked n points.now point_heights.now }
{
    let i = mesh_check_rows::first_outside(points, n);
    if i < n {
        return Err(Refusal::at(3, i));
    }
    if heights::heights_outside(point_heights, n as usize) {
        return Err(Refusal::of_call(10));
    }
    Ok(())
}

// What the checks answer a bulk load of these points. The number of points is tested before any product of it is formed.
pub fn check_bulk_load(
    points: &[i32],
    point_heights: &[i32],
    positions: usize,
    heights: usize,
    outs: usize,
    halves: usize,
    faces: usize,
    nodes: usize,
    freed: usize,
    buckets: usize,
    pending: usize,
    answers: usize,
) -> Result<(), Refusal>
    ensures { (l : BulkLoadLent)
        → LentBy l points.now point_heights.now
        positions heights outs halves faces nodes freed buckets pending answers
        → result ≡ bulk_load_checked l }
{
    let n = mesh_check::point_count(points);
    if n > 1000000 {
        return Err(Refusal::of_call(1));
    }
    if load_short(
        n,
        points.len(),
        point_heights.len(),
        positions,
        heights,
        outs,
        halves,
        faces,
        nodes,
        freed,
        buckets,
        pending,
        answers,
    ) {
        return Err(Refusal::of_call(2));
    }
    check_points(points, point_heights, n as u32)
}
