// What foretelling answers, and what banding then does. There is no code here: that of foretelling stands in the crate
// `band_foretell`.
#![tactic(auto)]

pub mod foretelling;
