// The cases of finishes and runs: a file for each list, whose `agrees` says whether a case does. The calls are made on rows that are owned
// here, lent as long as the case says: the exported finish and run; and the two meshes that a case of the Rust's answers has, after the
// last step of a run and after one pass of `fix_convexity`. The ring's rows, pending and the answers are lent with 7 in every entry. Each
// case begins where its reader stands, and the first line of it that is not as it should be is its difference.
#![tactic(auto)]

use angle::Point2;
use fithmoul::results::{FinishResult, RunResult};
use mesh::Counts;
use test_mesh::{Coordinates, Longs, Mesh, Ring, Words};

pub mod answers_cases;
pub mod finish_cases;
pub mod run_cases;

fn finish_on(mesh: &mut Mesh, pending: &mut Words) -> FinishResult {
    let counts = mesh.counts;
    let r = fithmoul::fithmoul_finish(
        counts.vertices,
        counts.edges,
        counts.faces,
        mesh.positions.as_slice(),
        mesh.heights.as_slice(),
        mesh.outs.as_mut_slice(),
        mesh.halves.as_mut_slice(),
        mesh.faces.as_mut_slice(),
        pending.as_mut_slice(),
    );
    mesh.counts = Counts {
        vertices: r.vertices,
        edges: r.edges,
        faces: r.faces,
    };
    r
}

fn run_on(
    mesh: &mut Mesh,
    changes: u32,
    ring: &mut Ring,
    pending: &mut Words,
    answers: &mut Longs,
    center: Point2,
    points: &Coordinates,
    point_heights: &Coordinates,
) -> RunResult {
    let counts = mesh.counts;
    let r = fithmoul::fithmoul_run(
        counts.vertices,
        counts.edges,
        counts.faces,
        changes,
        mesh.positions.as_mut_slice(),
        mesh.heights.as_mut_slice(),
        mesh.outs.as_mut_slice(),
        mesh.halves.as_mut_slice(),
        mesh.faces.as_mut_slice(),
        ring.nodes.as_mut_slice(),
        ring.freed.as_mut_slice(),
        ring.buckets.as_mut_slice(),
        pending.as_mut_slice(),
        answers.as_mut_slice(),
        center.x,
        center.y,
        points.as_slice(),
        point_heights.as_slice(),
    );
    mesh.counts = Counts {
        vertices: r.vertices,
        edges: r.edges,
        faces: r.faces,
    };
    r
}
