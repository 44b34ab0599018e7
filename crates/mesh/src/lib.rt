// The half-edge mesh: its counts, which every call takes and gives back by value. The links, the rules and their laws are in specs/.
#![tactic(auto)]

#[derive(Clone, Copy)]
pub struct Counts {
    pub vertices: u32,
    pub edges: u32,
    pub faces: u32,
}
