// Where a point lies in a mesh, searched for from anywhere: definitions and laws are in specs/; there is no code.
#![tactic(auto)]
