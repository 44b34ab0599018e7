// Refusals 1 to 5 of 01's table, which every public call tests first: what they are, in `specs/Check.antt`, and what an accepted mesh has.
// The code that tests them is the crate `mesh_check_rows`; here are the refusal that it answers, and the count of vertices that rows 1 and 2
// go by.
#![tactic(auto)]

ghost use Rattle.std.specs.Prelude.{◌≡◌};
ghost use Rattle.mesh_check.specs.Check.{point_count, refusal_at, vertex_count};

use mesh::Counts;

// A row of 01's table, and its place, 0 where it names none.
// The number stays one: C reads it, and the definitions of every call go by it.
#[derive(Clone, Copy, PartialEq, Eq)]
pub struct Refusal {
    pub number: u32,
    pub place: u32,
}

impl Refusal {
    pub fn at(number: u32, place: u32) -> Refusal
        ensures { result ≡ refusal_at number place }
    {
        Refusal { number, place }
    }

    // A row that names no place.
    pub fn of_call(number: u32) -> Refusal
        ensures { result ≡ refusal_at number 0 }
    {
        Refusal::at(number, 0)
    }
}

// How many points a row has. A last number that stands alone counts as one.
pub fn point_count(points: &[i32]) -> usize
    ensures { result ≡ point_count points.now }
{
    points.len().div_ceil(2)
}

// Seed plus points.
pub fn vertex_count(counts: Counts, points: &[i32]) -> usize
    ensures { result ≡ vertex_count counts points.now }
{
    (counts.vertices as usize) + point_count(points)
}
