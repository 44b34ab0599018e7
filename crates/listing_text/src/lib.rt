// The texts of the listing program: the bytes of its input become the numbers of a run, and the numbers of its answer become bytes.
#![tactic(auto)]

pub mod reading;
pub mod writing;
