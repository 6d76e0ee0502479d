// When a cover holds a point, and the decision.
#![tactic(auto)]

pub mod cover_test;
pub mod held;
