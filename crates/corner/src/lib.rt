// A corner of the boundary that turns left is closed: one face more (`create_single_face_between_edge_and_next`), and
// two edges legalized after it. This is what the walks of a step and the passes of `fix_convexity` do again and again
// (bulk_load.rs). What is left is `close_corner` of specs/Corner.antt; its laws are in specs/CornerLaws.antt.
#![tactic(auto)]

ghost use Rattle.std.specs.Prelude.{◌≡◌, length};
ghost use Rattle.dcel.specs.Rows.{position_of};
ghost use Rattle.corner.specs.Corner.{close_corner};
ghost use Rattle.corner.specs.CornerRows.{extended_of, CloseReady};

use mesh::Counts;

// What has become of a mesh: its counts, the faces added, the flips, and whether a flip's pushes would have overfilled the pending list.
// A flag and no Err: the rest stands in either case, and the definition `Extended` has them side by side.
#[derive(Clone, Copy)]
pub struct Extension {
    pub counts: Counts,
    pub faces: u32,
    pub flips: u64,
    pub full: bool,
}

// The face between e and the half-edge after it, and then the edges `first` and `second` legalized, pushed in this order.
pub fn close_corner(
    positions: &[i32],
    outs: &mut [u32],
    halves: &mut [u32],
    faces: &mut [u32],
    pending: &mut [u32],
    added: Extension,
    e: u32,
    first: u32,
    second: u32,
) -> Extension
    requires { CloseReady positions.now outs.old halves.old faces.old pending.old added e first second }
    ensures { extended_of outs.new halves.new faces.new result
        ≡ close_corner (length pending.old) (position_of positions.now)
        (extended_of outs.old halves.old faces.old added) e first second }
{
    let new = dcel_operations::create_single_face_between_edge_and_next(
        halves,
        faces,
        added.counts,
        e,
    );
    let done = legalize::legalize_edges_after_removal(
        positions,
        outs,
        halves,
        faces,
        pending,
        new.counts,
        first,
        second,
        added.flips,
    );
    Extension {
        counts: new.counts,
        faces: added.faces + 1,
        flips: done.flips,
        full: done.full,
    }
}
