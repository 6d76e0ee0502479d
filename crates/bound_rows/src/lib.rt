// The enclosure rows: this crate is `specs/` and `proofs/`. The code that copies the rows of m out of the table stands
// in the crate `bound_row_table`.
#![tactic(auto)]
