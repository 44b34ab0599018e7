// A mesh to walk on: its boundary turns through one full circle and is convex, so that a point strictly inside a triangle lies in no other.
// The definition and laws are in specs/; there is no code.
#![tactic(auto)]
