// The mesh while all its vertices lie on one line, and the first point off it. Definitions and laws are in specs/; their code is
// in `line_operations`, `line_search`, `line_fan` and `grow`.
#![tactic(auto)]

// Where a point lies while all vertices are on one line (triangulation_ext.rs): on an edge, on a vertex, off the line and
// strictly left of a half-edge, or beyond the vertex at an end.
#[derive(Clone, Copy)]
pub enum PositionWhenAllVerticesOnLine {
    OnEdge(u32),
    OnVertex(u32),
    NotOnLine(u32),
    ExtendingLine(u32),
}
