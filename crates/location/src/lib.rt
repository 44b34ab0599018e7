// Point location as `locate_with_hint_fixed_core` of triangulation_ext.rs makes it, and a scan where that would never end:
// definitions and laws, in specs/. The code is in `search`.
#![tactic(auto)]

// Where a point lies, and the condition of the operation that puts it there: `PositionInTriangulation` of the Rust,
// without its case of a mesh that has no triangle.
#[derive(Clone, Copy)]
pub enum PositionInTriangulation {
    // at the vertex
    OnVertex(u32),
    // inside the edge of this half-edge, on the side of its triangle
    OnEdge(u32),
    // strictly inside the inner face
    OnFace(u32),
    // strictly left of this half-edge of the outer face
    OutsideOfConvexHull(u32),
}

// Where a turn of the search has come to: the answer, which ends it, or the half-edge from which it goes on. An enum of its own: definitions
// of this crate, of `nearby` and of `search` have these two names for what a turn comes to.
#[derive(Clone, Copy)]
pub enum SearchState {
    Found(PositionInTriangulation),
    Onward(u32),
}
