// What the bounds of one coordinate of degree 4 or 5 need. The code stands in the crate `bound_coordinate_higher`.

// The degree, 10000 times the chord's start times m and its rise, the second differences, and where each begins to read
// its rows. The start is raised by 2^28 times the divisor, so that no number that is divided is negative. They stand
// apart from those of degrees 1 to 3, for speed: one struct of four differences for all degrees took 5,450,696
// instructions where these take 3,769,353 (docs/landings/19).
#[derive(Clone, Copy)]
pub struct HigherTerms {
    pub degree: u32,
    pub start: i64,
    pub step: i64,
    pub difference0: i64,
    pub difference1: i64,
    pub difference2: i64,
    pub difference3: i64,
    pub row0: usize,
    pub row1: usize,
    pub row2: usize,
    pub row3: usize,
}
