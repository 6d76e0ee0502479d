// The lines of a text, and what they mean or which refusal they get: checks 14 to 16.
#![tactic(auto)]

pub mod line_checks;
pub mod text_checks;
