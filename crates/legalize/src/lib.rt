// `legalize_edge` and `legalize_edges_after_removal` of triangulation_ext.rs, with the pending list in a row that the
// caller lends. Both are one loop that takes an entry and tests its edge; they differ in what an entry of the list is and in what a flip
// pushes, which is what `Entries` asks for: nearly all flips are those of half-edges, whose list needs a length and nothing else. What they
// leave is `legalize_edge` and `legalize_edges_after_removal` of specs/Legalize.antt; that they end, and what that means
// for the mesh, is in specs/LegalizeLaws.antt. `counts` says which mesh the rows hold; the code needs the number of its edges alone, for a
// long list's set of them.
#![tactic(auto)]

ghost use Rattle.std.specs.Prelude.{MatchOption, true, false, ◌≡◌, ◌<◌, eqb, ltb, length};
ghost use Rattle.mesh.specs.Mesh.{In};
ghost use Rattle.dcel.specs.Rows.{links_of, position_of};
ghost use Rattle.pending.specs.declared.PendingList.{PendingList};
ghost use Rattle.pending.specs.Set.{SetOf, ToPop, LastTaken};
ghost use Rattle.legalize.specs.Legalize.{entry_edge, legalize_turn, legalize, legalize_edge, legalize_edges_after_removal};
ghost use Rattle.legalize.specs.LegalizeRows.{plain, PushReady, Pushes, LegalizeReady, TurnReady, state_of, TurnLeaves, Leaves};
ghost use Rattle.legalize.specs.declared.Entry.{Entry};
ghost use Rattle.legalize.specs.declared.Entry.TheVariants.{HalfEdge, Edge};

use mesh::Counts;
use pending::PendingList;

// What an entry of the pending list is: a half-edge in `legalize_edge`, an edge in `legalize_edges_after_removal`.
#[derive(Clone, Copy)]
pub enum Entry {
    HalfEdge,
    Edge,
}

// The flips so far, those before the call among them, and whether the pushes of a flip would have overfilled the pending list.
// A flag and no Err: the flips count in either case, and the loops' definitions have them side by side.
#[derive(Clone, Copy)]
pub struct Legalized {
    pub flips: u64,
    pub full: bool,
}

// The value of a pending list, by the kind of its entries: what the loop does with it.
trait Entries: Copy {
    ghost kind: { Entry };

    // The value as one that may have a set.
    ghost value: { Self → PendingList };

    fn is_empty(self) -> bool
        ensures { result ≡ eqb (value self).length 0 };

    // Whether a push would have overfilled the row.
    fn is_over(self, pending: &[u32]) -> bool
        ensures { result ≡ ltb (length pending.now) (value self).length };

    // The last entry, and the list without it. The mesh has so many edges.
    fn pop(self, pending: &mut [u32], edges: u32) -> (u32, Self)
        requires { ToPop pending.old (value self) edges }
        ensures { LastTaken pending.old (value self) pending.new result.0 (value result.1) edges };

    // The edge that an entry has tested.
    fn edge(entry: u32) -> u32
        ensures { result ≡ entry_edge kind entry };

    // What the flip of an entry's edge pushes.
    fn push(self, halves: &[u32], pending: &mut [u32], edges: u32, entry: u32) -> Self
        requires { PushReady kind halves.now entry × SetOf pending.old (value self) edges }
        ensures { Pushes kind halves.now entry pending.old (value self) pending.new (value result) edges };
}

// The list of `legalize_edge`: a length.
#[derive(Clone, Copy)]
struct HalfEdges(usize);

impl Entries for HalfEdges {
    ghost kind = { HalfEdge };

    ghost value = { λ s. plain s.0 };

    fn is_empty(self) -> bool {
        self.0 == 0
    }

    fn is_over(self, pending: &[u32]) -> bool {
        self.0 > pending.len()
    }

    fn pop(self, pending: &mut [u32], _edges: u32) -> (u32, HalfEdges) {
        (pending::last(pending, self.0), HalfEdges(self.0 - 1))
    }

    fn edge(entry: u32) -> u32 {
        entry / 2
    }

    fn push(self, halves: &[u32], pending: &mut [u32], _edges: u32, entry: u32) -> HalfEdges {
        let rev = dcel::half_edge(halves, dcel::rev(entry));
        let n = pending::push(pending, self.0, rev.next);
        HalfEdges(pending::push(pending, n, rev.prev))
    }
}

// The list of `legalize_edges_after_removal`, which may have a set.
#[derive(Clone, Copy)]
struct Edges(PendingList);

impl Entries for Edges {
    ghost kind = { Edge };

    ghost value = { λ s. s.0 };

    fn is_empty(self) -> bool {
        self.0.length == 0
    }

    fn is_over(self, pending: &[u32]) -> bool {
        self.0.length > pending.len()
    }

    fn pop(self, pending: &mut [u32], edges: u32) -> (u32, Edges) {
        let taken = pending::pop(pending, self.0, edges);
        (taken.entry, Edges(taken.list))
    }

    fn edge(entry: u32) -> u32 {
        entry
    }

    fn push(self, halves: &[u32], pending: &mut [u32], edges: u32, entry: u32) -> Edges {
        let edge = dcel::half_edge(halves, 2 * entry);
        let rev = dcel::half_edge(halves, 2 * entry + 1);
        let two = pending::push_two(pending, self.0, edges, edge.next / 2, edge.prev / 2);
        Edges(pending::push_two(pending, two, edges, rev.next / 2, rev.prev / 2))
    }
}

// One turn of the loop: an entry is taken, and its edge flipped where it breaks the circle rule. The pushes come before the flip, which
// changes the links that they read. What is left of the list, and the count of flips; none where the pushes of a flip would overfill the
// list: that flip is not made.
fn turn<L: Entries>(
    positions: &[i32],
    outs: &mut [u32],
    halves: &mut [u32],
    faces: &mut [u32],
    pending: &mut [u32],
    counts: Counts,
    list: L,
    flips: u64,
) -> Option<(L, u64)>
    requires { TurnReady L.kind counts positions.now outs.old halves.old faces.old pending.old (L.value list) flips
        × (0 < (L.value list).length) }
    ensures { let after = legalize_turn (length pending.old) L.kind (position_of positions.now)
        (state_of outs.old halves.old faces.old pending.old (L.value list).length flips) in
        MatchOption result
        (TurnLeaves counts.edges outs.new halves.new faces.new pending.new (L.value list) flips true after)
        (λ t. TurnLeaves counts.edges outs.new halves.new faces.new pending.new (L.value t.0) t.1 false after) }
{
    let (entry, rest) = list.pop(pending, counts.edges);
    let edge = L::edge(entry);
    if !circle_test::should_flip(positions, halves, edge) {
        return Some((rest, flips));
    }
    let pushed = rest.push(halves, pending, counts.edges, entry);
    if pushed.is_over(pending) {
        return None;
    }
    dcel_operations::flip_cw(outs, halves, faces, edge);
    Some((pushed, flips + 1))
}

// Turn after turn, until the list is empty or a flip is refused.
fn legalize_entries<L: Entries>(
    positions: &[i32],
    outs: &mut [u32],
    halves: &mut [u32],
    faces: &mut [u32],
    pending: &mut [u32],
    counts: Counts,
    list: L,
    flips: u64,
) -> Legalized
    requires { TurnReady L.kind counts positions.now outs.old halves.old faces.old pending.old (L.value list) flips }
    ensures { Leaves outs.new halves.new faces.new result
        (legalize (length pending.old) L.kind counts (position_of positions.now)
        (state_of outs.old halves.old faces.old pending.old (L.value list).length flips)) }
{
    let mut left = list;
    let mut made = flips;
    while !left.is_empty() {
        let Some((rest, more)) = turn(positions, outs, halves, faces, pending, counts, left, made)
        else {
            return Legalized {
                flips: made,
                full: true,
            };
        };
        left = rest;
        made = more;
    }
    Legalized {
        flips: made,
        full: false,
    }
}

// `legalize_edge` with fully_legalize false: what the flip of an edge pushes lies on the side of its reverse.
pub fn legalize_edge(
    positions: &[i32],
    outs: &mut [u32],
    halves: &mut [u32],
    faces: &mut [u32],
    pending: &mut [u32],
    counts: Counts,
    e: u32,
    flips: u64,
) -> Legalized
    requires { LegalizeReady counts positions.now outs.old halves.old faces.old pending.old flips × In counts e }
    ensures { Leaves outs.new halves.new faces.new result
        (legalize_edge (length pending.old) counts (position_of positions.now)
        (links_of outs.old halves.old faces.old) flips e) }
{
    let n = pending::push(pending, 0, e);
    legalize_entries(
        positions,
        outs,
        halves,
        faces,
        pending,
        counts,
        HalfEdges(n),
        flips,
    )
}

// `legalize_edges_after_removal` of two edges, pushed in this order.
pub fn legalize_edges_after_removal(
    positions: &[i32],
    outs: &mut [u32],
    halves: &mut [u32],
    faces: &mut [u32],
    pending: &mut [u32],
    counts: Counts,
    first: u32,
    second: u32,
    flips: u64,
) -> Legalized
    requires { LegalizeReady counts positions.now outs.old halves.old faces.old pending.old flips
        × (first < counts.edges)
        × (second < counts.edges) }
    ensures { Leaves outs.new halves.new faces.new result
        (legalize_edges_after_removal (length pending.old) counts (position_of positions.now)
        (links_of outs.old halves.old faces.old) flips first second) }
{
    let n = pending::push(pending, 0, first);
    let m = pending::push(pending, n, second);
    let list = pending::list_of(m, counts.edges);
    legalize_entries(
        positions,
        outs,
        halves,
        faces,
        pending,
        counts,
        Edges(list),
        flips,
    )
}
