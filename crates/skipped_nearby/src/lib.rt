// An insertion leaves a mesh to walk on one, so that skipped points may be searched for from anywhere: laws, in specs/; there is no code.
#![tactic(auto)]
