// A curve read from the numbers of an outline, and where the next one begins.
#![tactic(auto)]

pub mod curve_values;
pub mod outline_curves;
