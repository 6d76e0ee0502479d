// The polygon round two boxes: the numbers that its path is made of. Its functions stand in the crate `draw`.
#![tactic(auto)]

// The numbers from low to high.
#[derive(Clone, Copy)]
pub struct Span {
    pub low: i32,
    pub high: i32,
}

#[derive(Clone, Copy, PartialEq, Eq)]
pub struct Point {
    pub x: i32,
    pub y: i32,
}

// Of two boxes, in one direction: the lowest and the highest level that they reach, and the stretch across it that they
// cover at each.
#[derive(Clone, Copy)]
pub struct Ends {
    pub levels: Span,
    pub lowest: Span,
    pub highest: Span,
}
