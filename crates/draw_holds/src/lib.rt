// When a polygon holds a point, and that the polygon drawn round a cover holds exactly what the cover holds: this crate
// is `specs/` and `proofs/`. There is no code.
#![tactic(auto)]
