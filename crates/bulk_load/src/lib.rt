// From bare points to a finished mesh: what the call `bulk_load` is and means. Definitions and laws are in specs/; the code is in
// `bulk_load_rows`.
#![tactic(auto)]

use finish::FinishAnswer;

// The answer of a bulk load: counts and totals as a run's, and whether the points came to no triangle: a line of points, one, or none.
// `line` is the definition's: a refusal and the totals stand beside it.
#[derive(Clone, Copy)]
pub struct BulkLoadAnswer {
    pub finish: FinishAnswer,
    pub line: bool,
}
