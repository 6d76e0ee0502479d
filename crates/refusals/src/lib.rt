// Every refusal of the engine, with what its spot is made of. A request adds a case and leaves these as they are.
#![tactic(auto)]

ghost use Rattle.std.specs.Prelude.{◌≡◌};
ghost use Rattle.refusals.specs.Refusals.{number_of, spot_of, node_spot};

#[derive(Clone, Copy)]
pub enum Refusal {
    // 1: the tolerance is outside its range.
    Tolerance,
    // 2: a degree is not allowed, at this index.
    Degree(usize),
    // 3: the list ends inside a curve; the list's length.
    CutShort(usize),
    // 4: the first coordinate outside its range, at this index.
    Coordinate(usize),
    // 5: a curve too many begins, its degree at this index.
    TooManyCurves(usize),
    // 6: the outline is empty.
    EmptyOutline,
    // 7: the first node at the last depth that does not meet the tolerance.
    TooWide { curve: u32, node: u32 },
    // 8: the numbers lent are too few for the records of this many leaves, for the answers to this many points, or for
    // the depths of this many curves.
    TooFewRecords(usize),
    // 9: the leaf list is empty or its length is no multiple of a record's.
    LeafListLength(usize),
    // 10: the first bad number of the leaf list, at this index.
    LeafListNumber(usize),
    // 11: the point's x is beyond the range.
    PointX,
    // 11: the point's y is, and its x is not.
    PointY,
    // 12: the first bad number of one box, at this place from 0 to 3, or of two boxes, from 0 to 7.
    BoxNumber(usize),
    // 13: the vertices lent are too few; their length.
    TooFewVertices(usize),
    // 14: this line is not a form.
    NotAForm(usize),
    // 15: the form on this line is out of order.
    OutOfOrder(usize),
    // 16: the text is too long; the first byte too many.
    TextTooLong(usize),
    // 17: a curve does not begin where the one before it ends, its degree at this index.
    Gap(usize),
    // 18: the number of pieces is outside its range.
    Pieces,
    // 19: the leaves are more than the caller takes; how many there are.
    TooManyLeaves(usize),
    // 20: a degree takes more pieces, at this index.
    DegreePieces(usize),
    // 21: the first coordinate that is no whole number, at this index.
    NotWhole(usize),
    // 22: the outline has no curve of this number.
    NoSuchCurve(usize),
    // 23: the records given are not those of the outline; the first index that differs, or where none does, the least
    // of their count, the list's length and the number that the outline's records have.
    OtherRecords(usize),
    // 24: the list of a B-spline's points is odd, too short or too long; its length.
    SplineLength(usize),
    // 25: the first coordinate of a B-spline outside its range, at this index.
    SplineCoordinate(usize),
    // 26: the leaf list has more records than a quote takes; its length.
    TooManyRecords(usize),
    // 101: a list of points has an odd count of numbers, this one.
    OddPoints(usize),
}

impl Refusal {
    // The number of document 01's table, with those that requests add: the C interface and the text program tell it.
    pub fn number(self) -> u32
        ensures { result ≡ number_of self }
    {
        match self {
            Refusal::Tolerance => 1,
            Refusal::Degree(_) => 2,
            Refusal::CutShort(_) => 3,
            Refusal::Coordinate(_) => 4,
            Refusal::TooManyCurves(_) => 5,
            Refusal::EmptyOutline => 6,
            Refusal::TooWide { curve: _, node: _ } => 7,
            Refusal::TooFewRecords(_) => 8,
            Refusal::LeafListLength(_) => 9,
            Refusal::LeafListNumber(_) => 10,
            Refusal::PointX => 11,
            Refusal::PointY => 11,
            Refusal::BoxNumber(_) => 12,
            Refusal::TooFewVertices(_) => 13,
            Refusal::NotAForm(_) => 14,
            Refusal::OutOfOrder(_) => 15,
            Refusal::TextTooLong(_) => 16,
            Refusal::Gap(_) => 17,
            Refusal::Pieces => 18,
            Refusal::TooManyLeaves(_) => 19,
            Refusal::DegreePieces(_) => 20,
            Refusal::NotWhole(_) => 21,
            Refusal::NoSuchCurve(_) => 22,
            Refusal::OtherRecords(_) => 23,
            Refusal::SplineLength(_) => 24,
            Refusal::SplineCoordinate(_) => 25,
            Refusal::TooManyRecords(_) => 26,
            Refusal::OddPoints(_) => 101,
        }
    }

    // The whole number that says where, as the C interface and the text program tell it.
    pub fn spot(self) -> usize
        ensures { result ≡ spot_of self }
    {
        match self {
            Refusal::Tolerance => 0,
            Refusal::Degree(index) => index,
            Refusal::CutShort(length) => length,
            Refusal::Coordinate(index) => index,
            Refusal::TooManyCurves(index) => index,
            Refusal::EmptyOutline => 0,
            Refusal::TooWide { curve, node } => node_spot(curve, node),
            Refusal::TooFewRecords(leaves) => leaves,
            Refusal::LeafListLength(length) => length,
            Refusal::LeafListNumber(index) => index,
            Refusal::PointX => 0,
            Refusal::PointY => 1,
            Refusal::BoxNumber(place) => place,
            Refusal::TooFewVertices(length) => length,
            Refusal::NotAForm(line) => line,
            Refusal::OutOfOrder(line) => line,
            Refusal::TextTooLong(first) => first,
            Refusal::Gap(index) => index,
            Refusal::Pieces => 0,
            Refusal::TooManyLeaves(leaves) => leaves,
            Refusal::DegreePieces(index) => index,
            Refusal::NotWhole(index) => index,
            Refusal::NoSuchCurve(number) => number,
            Refusal::OtherRecords(index) => index,
            Refusal::SplineLength(length) => length,
            Refusal::SplineCoordinate(index) => index,
            Refusal::TooManyRecords(length) => length,
            Refusal::OddPoints(count) => count,
        }
    }
}

// The spot of a node: one number for a curve and a node of it.
pub fn node_spot(curve: u32, node: u32) -> usize
    ensures { result ≡ node_spot curve node }
{
    512 * (curve as usize) + (node as usize)
}
