// A new vertex in an inner face, or on an edge: that the mesh rules, left turning and the boundary are kept. The laws are in specs/; there
// is no code.
#![tactic(auto)]
