// A step and a run as definitions, with their laws, demand 3 among them, in specs/; here the answer of a step, which they give.
#![tactic(auto)]

use decide::Fate;
use mesh::Counts;
use mesh_check::Refusal;

// A point's fate, the faces and the flips of its step.
#[derive(Clone, Copy)]
pub struct Answer {
    pub fate: Fate,
    pub faces: u32,
    pub flips: u64,
}

// The words of an answer in the answers row: the fate's number, its vertex, the faces, the flips.
pub const ANSWER_WORDS: usize = 4;

// The mesh's counts after the call, and what it has done.
#[derive(Clone, Copy)]
pub struct StepAnswer {
    pub counts: Counts,
    pub stepped: Result<Answer, Refusal>,
}
