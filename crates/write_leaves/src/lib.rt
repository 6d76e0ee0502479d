// Leaf records as bytes: their boxes, and the leaf lines of the answer.
#![tactic(auto)]

pub mod box_bytes;
pub mod leaf_lines;
