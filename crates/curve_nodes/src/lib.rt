// Bézier curves of degree 1 to 5 over scaled whole numbers, halved and carried on, and the nodes of repeated halving.
#![tactic(auto)]

ghost use Rattle.std.specs.Prelude.{◌≡◌, suc, ◌^◌, ◌≤◌, ◌<◌};
ghost use Rattle.setting.specs.Setting.{deepest};
ghost use Rattle.curve_nodes.specs.{Nodes.{depth, after, node_curve}, Inside.{onward_of, Halvable}};
ghost use Rattle.curve_nodes.specs.{Halves.{left_half, right_half}, Bounds.{Sized}};

use curve_halves::{left_values, right_values, same_values};
use curve_onward::onward_values;

// A curve (document 01): its degree and six control values a coordinate, those past the degree being zero. At depth k
// of halving the values are the exact ones times 2^(degree * k).
#[derive(Clone, Copy)]
pub struct Curve {
    pub degree: u32,
    pub x: [i64; 6],
    pub y: [i64; 6],
}

impl Curve {
    // A copy of the curve, value by value. A call that is handed the copy does not keep the caller's own curve out of
    // registers.
    pub fn same(self) -> Curve
        requires { Halvable self }
        ensures { result ≡ self }
    {
        let degree = self.degree;
        let cx = self.x;
        let cy = self.y;
        let x = same_values(cx);
        let y = same_values(cy);
        Curve { degree, x, y }
    }

    // The half from t = 0 to 1/2.
    pub fn left(self) -> Curve
        requires { Halvable self }
        ensures { result ≡ left_half self }
    {
        let degree = self.degree;
        let cx = self.x;
        let cy = self.y;
        let x = left_values(degree, cx);
        let y = left_values(degree, cy);
        Curve { degree, x, y }
    }

    // The half from t = 0 to 1/2 of a curve of degree 1 to 3.
    // It stands apart from `left` for the loops of these degrees, which are slower with degrees 4 and 5 in them
    // (docs/landings/20).
    pub fn left_low(self) -> Curve
        requires { Halvable self × (self.degree ≤ 3) }
        ensures { result ≡ left_half self }
    {
        let degree = self.degree;
        let cx = self.x;
        let cy = self.y;
        let x = curve_halves::left_low(degree, cx);
        let y = curve_halves::left_low(degree, cy);
        Curve { degree, x, y }
    }

    // The half from t = 1/2 to 1.
    pub fn right(self) -> Curve
        requires { Halvable self }
        ensures { result ≡ right_half self }
    {
        let degree = self.degree;
        let cx = self.x;
        let cy = self.y;
        let x = right_values(degree, cx);
        let y = right_values(degree, cy);
        Curve { degree, x, y }
    }

    // The curve carried on past its end, over a stretch of parameters 2^k times as long.
    pub fn onward(self, k: u32) -> Curve
        requires { Halvable self × (k ≤ 7) }
        ensures { result ≡ onward_of k self }
    {
        let degree = self.degree;
        let cx = self.x;
        let cy = self.y;
        let x = onward_values(degree, k, cx);
        let y = onward_values(degree, k, cy);
        Curve { degree, x, y }
    }

    // A curve of degree 1 to 3 carried on past its end, over a stretch of parameters 2^k times as long.
    // It stands apart from `onward` for the loops of these degrees, which are slower with degrees 4 and 5 in them
    // (docs/landings/20).
    pub fn onward_low(self, k: u32) -> Curve
        requires { Halvable self × (self.degree ≤ 3) × (k ≤ 7) }
        ensures { result ≡ onward_of k self }
    {
        let degree = self.degree;
        let cx = self.x;
        let cy = self.y;
        let x = curve_onward::onward_low(degree, k, cx);
        let y = curve_onward::onward_low(degree, k, cy);
        Curve { degree, x, y }
    }
}

// How many halvings lead to a node: the place of its highest one bit.
pub fn depth(node: u32) -> u32
    requires { 0 < node }
    ensures { result ≡ depth node }
{
    u32::leading_zeros(node) ^ 31
}

// The node after a leaf; 1 after the curve's last.
pub fn after(node: u32) -> u32
    requires { (0 < node) × (node < 2 ^ 31) }
    ensures { result ≡ after node }
{
    let next = node + 1;
    next >> u32::trailing_zeros(next)
}

// The curve of a node, halved down from the root along the node's bits.
pub fn node_curve(root: Curve, node: u32) -> Curve
    requires { (0 < node) × (node < 2 ^ suc (deepest root.degree)) × Sized 0 root }
    ensures { result ≡ node_curve root node }
{
    let mut curve = root;
    for i in (0..depth(node)).rev() {
        curve = if (node >> i) % 2 == 0 {
            curve.left()
        } else {
            curve.right()
        };
    }
    curve
}
