// What judging answers of a point that lies on the band.

// A record of a leaf list and a cover of it that hold a point, both from 0.
#[derive(Clone, Copy)]
pub struct Holder {
    pub leaf: usize,
    pub cover: usize,
}
