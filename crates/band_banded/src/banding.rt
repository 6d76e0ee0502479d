// The answer of banding: this report, or the first fault as a refusal.

// What banding reports.
#[derive(Clone, Copy)]
pub struct Banded {
    pub curves: usize,
    pub leaves: usize,
    pub nodes: usize,
}
