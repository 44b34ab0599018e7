// The marked examples of the specification: specs/Marked.antt has them in one list, specs/Established.antt the theorem that
// establishes them together. No code.
#![tactic(auto)]
