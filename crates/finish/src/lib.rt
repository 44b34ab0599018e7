// The call `finish`: convexity passes until one adds no face, then the closing pass, on a lent mesh. What it answers
// and leaves is `finish_of` of specs/Finish.antt for every input; what that means for the mesh is in
// specs/FinishLaws.antt.
#![tactic(auto)]

ghost use Rattle.std.specs.Prelude.{◌≡◌, List, ℕ, length};
ghost use Rattle.convexity.specs.ConvexityRows.{MeshReady};
ghost use Rattle.dcel.specs.MeshRows.{mesh_rows};
ghost use Rattle.dcel.specs.Rows.{links_of, position_of};
ghost use Rattle.finish.specs.Finish.{finish_mesh, finished_from, finished_with, finish_of, seed_checked};
ghost use Rattle.finish.specs.FinishRows.{finishing_of};

use mesh::Counts;
use mesh_check::Refusal;

// The faces added by all convexity passes, their flips, and those of the closing pass.
#[derive(Clone, Copy)]
pub struct Totals {
    pub faces: u32,
    pub convexflips: u64,
    pub closingflips: u64,
}

// The mesh's counts after the call, and what it has done.
#[derive(Clone, Copy)]
pub struct FinishAnswer {
    pub counts: Counts,
    pub finished: Result<Totals, Refusal>,
}

// What was made of a mesh, and whether a flip's pushes would have overfilled the pending list. A flag and no Err: the counts are answered in
// either case, and the definition `Finishing` has them side by side.
#[derive(Clone, Copy)]
pub struct Ended {
    pub counts: Counts,
    pub totals: Totals,
    pub full: bool,
}

// The rows of 01's table that a finish tests before anything else.
pub fn check_seed(
    counts: Counts,
    positions: &[i32],
    outs: &[u32],
    halves: &[u32],
    faces: &[u32],
    pending: &[u32],
) -> Result<(), Refusal>
    ensures { result ≡ seed_checked counts
        (mesh_rows positions.now outs.now halves.now faces.now) pending.now }
{
    mesh_check_rows::check_with(
        &[],
        pending::is_short(pending.len()),
        counts,
        positions,
        outs,
        halves,
        faces,
    )
}

// The passes on a good mesh.
pub fn finish_mesh(
    positions: &[i32],
    outs: &mut [u32],
    halves: &mut [u32],
    faces: &mut [u32],
    pending: &mut [u32],
    counts: Counts,
) -> Ended
    requires { MeshReady positions.now outs.old halves.old faces.old pending.old counts }
    ensures { finishing_of outs.new halves.new faces.new result
        ≡ finish_mesh (length pending.old) counts (position_of positions.now)
        (links_of outs.old halves.old faces.old) }
{
    let added = convexity::convexity(positions, outs, halves, faces, pending, counts);
    let after = added.counts;
    if added.full {
        return Ended {
            counts: after,
            totals: Totals {
                faces: added.faces,
                convexflips: added.flips,
                closingflips: 0,
            },
            full: true,
        };
    }
    let closing = closing::closing_pass(positions, outs, halves, faces, after);
    Ended {
        counts: after,
        totals: Totals {
            faces: added.faces,
            convexflips: added.flips,
            closingflips: closing,
        },
        full: false,
    }
}

// 9: "the pushes of a flip would overfill the pending list", with the place that the call names.
pub fn answer_of(ended: Ended, place: u32) -> FinishAnswer
    ensures { (o h a : List ℕ)
        → result ≡ record { counts = ended.counts; finished = finished_from place (finishing_of o h a ended) } }
{
    if ended.full {
        return FinishAnswer {
            counts: ended.counts,
            finished: Err(Refusal::at(9, place)),
        };
    }
    FinishAnswer {
        counts: ended.counts,
        finished: Ok(ended.totals),
    }
}

// The public call.
pub fn finish(
    counts: Counts,
    positions: &[i32],
    outs: &mut [u32],
    halves: &mut [u32],
    faces: &mut [u32],
    pending: &mut [u32],
) -> FinishAnswer
    ensures { finished_with result
        (mesh_rows positions.now outs.new halves.new faces.new) pending.new
        ≡ finish_of counts
        (mesh_rows positions.now outs.old halves.old faces.old) pending.old }
{
    if let Err(refusal) = check_seed(counts, positions, outs, halves, faces, pending) {
        return FinishAnswer {
            counts,
            finished: Err(refusal),
        };
    }
    let ended = finish_mesh(positions, outs, halves, faces, pending, counts);
    dcel::clear(pending);
    answer_of(ended, 0)
}
