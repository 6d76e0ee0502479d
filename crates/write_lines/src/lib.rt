// The lines of the answer but for the leaves, as bytes: done, on, off, refused; and all lines of a band.
#![tactic(auto)]

pub mod band_lines;
pub mod render;
