// Digits, words and decimal numbers put into a list of bytes.
#![tactic(auto)]

pub mod decimals;
pub mod digits;
