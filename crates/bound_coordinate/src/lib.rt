// One coordinate's low and high at a break point, computed: its terms, and the bounds from them.
#![tactic(auto)]

pub mod break_points;
pub mod higher;
pub mod terms;
