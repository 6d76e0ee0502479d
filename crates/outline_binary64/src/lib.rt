// An outline list in binary64: one curve read from it, and its checks. The list is not copied. Its functions have twins
// in `outline_reading` and `outline_checks`: one for both would be no plainer, since its contract would speak through a
// trait with a member for what a number stands for, for each test of one, and for how a fault is named.
#![tactic(auto)]

pub mod checks;
pub mod reading;
