// What a point would do, before it counts (02, Change 5): the decision part of a step, as a quote, on a mesh that is only read. What is
// answered is `ask_of` of specs/Ask.antt. The code is the crate `ask_rows`.
#![tactic(auto)]
