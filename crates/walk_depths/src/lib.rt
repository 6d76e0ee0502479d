// How deep the walk of a curve goes: the premise of the depth claim, and the depth of a curve, which is the least that
// meets it. There is no code here: that of foretelling stands in the crate `band_foretell`.
#![tactic(auto)]
