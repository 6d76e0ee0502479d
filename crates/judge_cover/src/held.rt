// The numbers by which it is decided whether a cover holds a point.

// The weights of two boxes, not both 0.
#[derive(Clone, Copy)]
pub struct Weights {
    pub first: i64,
    pub second: i64,
}

// All weights from `low`, the nearest to the first box alone, to `high`.
#[derive(Clone, Copy)]
pub struct Range {
    pub low: Weights,
    pub high: Weights,
}

// How far a coordinate lies inside the low and the high side of the first box and of the second.
#[derive(Clone, Copy)]
pub struct Sides {
    pub low_first: i64,
    pub low_second: i64,
    pub high_first: i64,
    pub high_second: i64,
}
