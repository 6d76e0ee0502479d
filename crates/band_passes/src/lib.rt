// The two passes over the curves of a list: leaves counted, and their records written.
#![tactic(auto)]

pub mod forms;
pub mod leaf_count;
pub mod leaf_writing;
