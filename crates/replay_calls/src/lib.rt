// The cases of the exported calls but ask, commit, finish, run and bulk load: a file for each list, whose `agrees` says whether a case
// does. The calls are made on rows that are owned here, lent as long as the case says. The ring's rows and pending are lent with 7 in every
// entry. Each case begins where its reader stands, and the first line of it that is not as it should be is its difference.
#![tactic(auto)]

pub mod check_cases;
pub mod locate_cases;
pub mod side_cases;
pub mod step_cases;
pub mod volume_cases;
