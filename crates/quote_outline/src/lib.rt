// The quote over the records that banding wrote: this crate is `specs/` and `proofs/`. There is no code.
#![tactic(auto)]
