// The boxes of a node, and when they meet the tolerance: definitions and laws; the test is computed in bound_tolerance.
#![tactic(auto)]

pub mod node_boxes;
