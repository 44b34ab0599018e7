// The cases of loading bare points: a file for the list, whose `agrees` says whether a case does. The call is made on rows that are owned
// here, lent as long as the case says and with what it has in them. The ring's rows, pending and the answers are lent with 7 in every
// entry. Each case begins where its reader stands, and the first line of it that is not as it should be is its difference.
#![tactic(auto)]

pub mod bulk_load_cases;
