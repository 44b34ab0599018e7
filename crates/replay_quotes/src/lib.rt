// The cases of asking and committing: a file for each list, whose `agrees` says whether a case does. The calls are made on rows that are
// owned here, lent as long as the case says. The ring's rows and pending are lent with 7 in every entry. Each case begins where its reader
// stands, and the first line of it that is not as it should be is its difference.
#![tactic(auto)]

pub mod ask_cases;
pub mod commit_cases;
