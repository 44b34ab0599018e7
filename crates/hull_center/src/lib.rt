// When the sweep of a bare list of points may start (bulk_load.rs, `try_get_hull_center` and `Hull::from_triangulation`),
// and the centre that it then turns about: definitions and laws, in specs/. The code is in `hull_center_rows`.
#![tactic(auto)]

// The positions of some vertices, added up.
#[derive(Clone, Copy)]
pub struct PositionSum {
    pub x: i64,
    pub y: i64,
}
