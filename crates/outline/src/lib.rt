// The directions of a mesh's boundary, and where it is the hull of its vertices: definitions and laws, in specs/; there is no code.
#![tactic(auto)]
