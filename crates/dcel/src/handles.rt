// What the rows hold of a half-edge, as values. A module of its own, since `Far` and the function `far` may not stand in one.

#[derive(Clone, Copy)]
pub struct HalfEdgeEntry {
    pub next: u32,
    pub prev: u32,
    pub face: u32,
    pub origin: u32,
}

// The vertex across the triangle from a half-edge; a half-edge of the outer face has none. An enum of its own, since an
// `Option` is no plainer: `Outer` says which half-edge has none, and callers only match.
#[derive(Clone, Copy)]
pub enum Far {
    Vertex(u32),
    Outer,
}
