// A quote: what a point would do, told before it counts, with the change count of the mesh that was asked (02, Change 5); and the two
// refusals that only quotes know, 11 and 12. Nothing here knows a mesh.
#![tactic(auto)]

ghost use Rattle.std.specs.Prelude.{◌≡◌};
ghost use Rattle.mesh_check.specs.Check.{and_then};
ghost use Rattle.quote.specs.Quote.{same_quote, check_quote, check_changes};

use mesh_check::Refusal;

// The change count, the point with its height, and of a step's answer the fate's number and the faces.
#[repr(C)]
#[derive(Clone, Copy, PartialEq, Eq)]
pub struct Quote {
    pub changes: u32,
    pub x: i32,
    pub y: i32,
    pub z: i32,
    pub fate: u64,
    pub faces: u64,
}

// Whether two quotes are the same, number by number.
pub fn is_same(quote: Quote, present: Quote) -> bool
    ensures { result ≡ same_quote quote present }
{
    quote == present
}

// Row 12: the count is at its end, 4,294,967,295.
pub fn check_changes(changes: u32) -> Result<(), Refusal>
    ensures { result ≡ check_changes changes }
{
    if changes == u32::MAX {
        return Err(Refusal::of_call(12));
    }
    Ok(())
}

// Row 11, of a quote that is handed in beside the one that asking gives now, and then row 12.
pub fn check_quote(quote: Quote, present: Quote) -> Result<(), Refusal>
    ensures { result ≡ and_then (check_quote quote present) (check_changes present.changes) }
{
    if !is_same(quote, present) {
        return Err(Refusal::of_call(11));
    }
    check_changes(present.changes)
}
