// An insertion leaves a settled mesh settled where the edges at its vertex keep the circle rule: laws, in specs/; there is no code.
#![tactic(auto)]
