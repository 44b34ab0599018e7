// No code: what a call with heights leaves in the row of heights, and what that means. The code is the crate `surface_rows`.
#![tactic(auto)]
