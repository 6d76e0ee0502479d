// The tightest band that fits, and banding at a larger tolerance: this crate is `specs/` and `proofs/`. There is no
// code: that of the tightest band stands in the crate `band_tighten`.
#![tactic(auto)]
