// Check 10 of a leaf list: all its numbers looked at, without a branch; and number by number where one is bad.
#![tactic(auto)]

pub mod leaf_faults;
pub mod leaf_list;
