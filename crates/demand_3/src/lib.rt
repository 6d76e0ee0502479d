// Demand 3 as one theorem, the point between two curves, and the starred examples: this crate is `specs/` and
// `proofs/`. There is no code.
#![tactic(auto)]
