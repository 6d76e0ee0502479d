// A box of a node, in whole sixteenths.

// A box at a break point, in sixteenths of a stage unit, as it is computed; in a record its numbers have 32 bits.
#[derive(Clone, Copy)]
pub struct WideBox {
    pub x_low: i64,
    pub x_high: i64,
    pub y_low: i64,
    pub y_high: i64,
}
