// What banding answers, and what is then so. There is no code here: that of banding stands in the crate `band`.
#![tactic(auto)]

pub mod banding;
