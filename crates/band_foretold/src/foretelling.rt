// The answer of foretelling: this, or the first fault as a refusal.

// The most leaves and nodes that banding reports, and 0 and 0 where a curve has no depth.
#[derive(Clone, Copy)]
pub struct Foretold {
    pub leaves: usize,
    pub nodes: usize,
}
