// The first record and cover of a leaf list that hold a point, looked for by boxes: one round each run of records, and
// one round each group of runs. A point outside a box is held by no record in it.
#![tactic(auto)]

pub mod boxing;
pub mod searching;
