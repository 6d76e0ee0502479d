// Polynomials in Bernstein form: this crate is `specs/` and `proofs/`, for the crates of curves and of their bounds.
// There is no code.
#![tactic(auto)]
