// What exchanging one curve answers, and what it leaves in the caller's list. There is no code here: that of exchanging
// stands in the crate `band_exchange`.
#![tactic(auto)]
