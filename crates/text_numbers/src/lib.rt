// Decimal numbers at a place of a text: bytes, runs of digits, and a number read.
#![tactic(auto)]

pub mod digit_runs;
pub mod number_reading;
