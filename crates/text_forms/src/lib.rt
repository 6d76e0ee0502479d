// A line of a text: words, numbers and pairs of numbers, the forms (tolerance, curve, point), and a line read.
#![tactic(auto)]

pub mod curve_forms;
pub mod form_reading;
pub mod forms;
pub mod pairs;
