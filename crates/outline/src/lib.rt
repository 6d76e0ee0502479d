// Outlines: where their curves stand, what is read of them, and their checks: this crate is `specs/` and `proofs/`.
// There is no code: what reads a curve stands in the crate `outline_reading`, the checks in `outline_checks`.
#![tactic(auto)]
