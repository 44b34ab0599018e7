// An added point goes into the mesh (bulk_load.rs, `single_bulk_insertion_step` from its first change on): what that is,
// `add_vertex` of specs/Apply.antt, and its laws. The code is the crate `apply_rows`; here are the types of its answers.
#![tactic(auto)]

use corner::Extension;

// A loop under way: what has become of the mesh, and the current edge.
#[derive(Clone, Copy)]
pub struct Walked {
    pub added: Extension,
    pub edge: u32,
}

// What has become of the mesh, and the boundary edges to the new vertex and from it.
#[derive(Clone, Copy)]
pub struct Entered {
    pub added: Extension,
    pub leftedge: u32,
    pub rightedge: u32,
}
