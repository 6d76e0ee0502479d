// The walk of a curve in parameter order, from its root on: where it stands, its steps, and a curve walked.
#![tactic(auto)]

ghost use Rattle.std.specs.Prelude.{◌≡◌, false, ◌≤◌, ◌<◌, ◌^◌};
ghost use Rattle.setting.specs.Setting.{deepest};
ghost use Rattle.curve_nodes.specs.Bounds.{Sized};
ghost use Rattle.bound_pieces.specs.Inside.{PiecesReady, setting_of};
ghost use Rattle.walk_curve.specs.Inside.{Suits, Standing, left_part, AfterOf, walked_of};

use bound_pieces::Pieces;
use bound_tolerance::Tested;
use curve_nodes::Curve;

// Where a walk stands: a node, with the node's own curve. Every step follows from it alone, so no walk keeps a stack.
#[derive(Clone, Copy)]
pub struct Part {
    pub node: u32,
    pub curve: Curve,
}

impl Part {
    // The left half.
    pub fn left(self) -> Part
        requires { Standing self × (self.node < 2 ^ deepest self.curve.degree) }
        ensures { result ≡ left_part self }
    {
        let node = 2 * self.node;
        let own = self.curve;
        let curve = own.left();
        Part { node, curve }
    }

    // The part after this one; node 1 stands for the end. Where n + 1 ends in k zeros, the stretch that follows node
    // n's is 2^k times as long, so its curve is this one carried on.
    pub fn after(self) -> Part
        requires { Standing self }
        ensures { AfterOf self result }
    {
        let here = self.node;
        let own = self.curve;
        let node = curve_nodes::after(here);
        if node == 1 {
            return Part { node, curve: own };
        }
        let next = here + 1;
        let curve = own.onward(u32::trailing_zeros(next));
        Part { node, curve }
    }

    // The left half of a part of a curve of degree 1 to 3.
    // It stands apart from `left` for the loops of these degrees, which are slower with degrees 4 and 5 in them
    // (docs/landings/20).
    pub fn left_low(self) -> Part
        requires { Standing self × (self.node < 2 ^ deepest self.curve.degree) × (self.curve.degree ≤ 3) }
        ensures { result ≡ left_part self }
    {
        let here = self.node;
        let own = self.curve;
        let node = 2 * here;
        let curve = own.left_low();
        Part { node, curve }
    }

    // The part after one of a curve of degree 1 to 3; node 1 stands for the end.
    // It stands apart from `after` for the loops of these degrees, which are slower with degrees 4 and 5 in them
    // (docs/landings/20).
    pub fn after_low(self) -> Part
        requires { Standing self × (self.curve.degree ≤ 3) }
        ensures { AfterOf self result }
    {
        let last = self.node;
        let own = self.curve;
        let node = curve_nodes::after(last);
        if node == 1 {
            return Part { node, curve: own };
        }
        let next = last + 1;
        let curve = own.onward_low(u32::trailing_zeros(next));
        Part { node, curve }
    }
}

// The leaves of a curve, counted; or else the first node at the last depth that does not meet the tolerance. The rows
// lent are those of the number of pieces.
pub fn walk(rows: &[i64], pieces: Pieces, curve: Curve, t: i64) -> Result<usize, u32>
    requires { (PiecesReady pieces rows.now) × (Sized 0 curve) × (Suits (setting_of pieces) curve.degree) }
    ensures { result ≡ walked_of (setting_of pieces) t curve }
{
    if 3 < curve.degree {
        walk_higher(rows, pieces, curve, t)
    } else {
        walk_low(rows, pieces, curve, t)
    }
}

// Counts the leaves of a curve of degree 1 to 3.
// Apart, for speed: in one loop with degrees 4 and 5 the test of a node is no longer inlined (docs/landings/20).
fn walk_low(rows: &[i64], pieces: Pieces, curve: Curve, t: i64) -> Result<usize, u32>
    requires { (PiecesReady pieces rows.now) × (Sized 0 curve) × (curve.degree ≤ 3) }
    ensures { result ≡ walked_of (setting_of pieces) t curve }
{
    let mut part = Part { node: 1, curve };
    let mut leaves: usize = 0;
    loop {
        let node = part.node;
        let own = part.curve;
        let depth = curve_nodes::depth(node);
        let met = match bound_tolerance::verdict_of(pieces, own, depth, t) {
            Tested::Narrow => true,
            Tested::Wide => false,
            Tested::Open => bound_tolerance::boxes_meet(rows, pieces, own, depth, t, t * t),
        };
        if met {
            leaves += 1;
            part = part.after_low();
            if part.node == 1 {
                return Ok(leaves);
            }
        } else {
            if 256 <= node {
                return Err(node);
            }
            part = part.left_low();
        }
    }
}

// Counts the leaves of a curve of degree 4 or 5.
fn walk_higher(rows: &[i64], pieces: Pieces, curve: Curve, t: i64) -> Result<usize, u32>
    requires { (PiecesReady pieces rows.now) × (Sized 0 curve) × (3 < curve.degree) × (3 ≤ pieces.m)
        × (pieces.sixths ≡ false) }
    ensures { result ≡ walked_of (setting_of pieces) t curve }
{
    let mut part = Part { node: 1, curve };
    let mut leaves: usize = 0;
    loop {
        let node = part.node;
        let own = part.curve;
        let depth = curve_nodes::depth(node);
        let met = match bound_tolerance_higher::verdict_of(pieces, own, depth, t) {
            Tested::Narrow => true,
            Tested::Wide => false,
            Tested::Open => bound_tolerance_higher::boxes_meet(rows, pieces, own.same(), depth, t),
        };
        if met {
            leaves += 1;
            part = part.after();
            if part.node == 1 {
                return Ok(leaves);
            }
        } else {
            if 16 <= node {
                return Err(node);
            }
            part = part.left();
        }
    }
}
