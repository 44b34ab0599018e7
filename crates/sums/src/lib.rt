// Finite sums and counts, iterates and reachability, point updates, bounded tests and loops, for proofs. The laws are
// in specs/; there is no code.
#![tactic(auto)]
