// The depths of an outline's curves, written to a list, and what they add up to.
ghost use Rattle.std.specs.Prelude.{◌≡◌, true, ◌≤◌, ◌<◌, ◌^◌, Ok};
ghost use lib.{IntN.{pos}, ListN.{length, set}};
ghost use Rattle.setting.specs.Setting.{lists, HasRows, degree_pieces, deepest};
ghost use Rattle.curve_nodes.specs.Bounds.{Sized};
ghost use Rattle.walk_depths.specs.Depth.{depth_of};
ghost use Rattle.band_passes.specs.{Forms.{Outline}, Inside.{Readable, curves_in}};
ghost use Rattle.band_foretold.specs.Foretelling.{foretell_depths, depths_of, depth_numbers, numbers_written};
ghost use Rattle.band_foretell.specs.Inside.{depth_found, found_number, UpToEight, FewSums, sums_with, sums_answer};

use crate::bending::largest_of;
use crate::gaps::gap_of;
use crate::premise::least_depth;
use band_foretold::foretelling::Foretold;
use curve_nodes::Curve;
use outline_reading::curve_values::curve_at;
use outline_reading::outline_curves::next_at;

// The greatest depth of a degree.
fn deepest_of(degree: u32) -> u32
    ensures { result ≡ deepest degree }
{
    if degree <= 3 { 8 } else { 4 }
}

// The depth of a curve of an outline.
fn depth_of(curve: Curve, t: u64, m: usize) -> Option<u32>
    requires { (HasRows m) × (Sized 0 curve) × (degree_pieces curve.degree m ≡ true) × (t ≤ 2 ^ 20) }
    ensures { result ≡ depth_found (depth_of (lists m) (pos t) curve) }
{
    let degree = curve.degree;
    least_depth(gap_of(m, degree), largest_of(curve), t, deepest_of(degree))
}

// A depth put at its place, −1 for none: a list of the C interface holds numbers alone.
fn put(depths: &mut [i32], k: usize, depth: Option<u32>)
    requires { (k < length depths.old) × (UpToEight depth) }
    ensures { depths.new ≡ set depths.old k (found_number depth) }
{
    depths[k] = match depth {
        Some(j) => j as i32,
        None => -1,
    };
}

// No leaf and no node.
const NOTHING: Foretold = Foretold {
    leaves: 0,
    nodes: 0,
};

// 2^j, the most leaves of a curve of depth j.
fn power(j: u32) -> usize
    requires { j ≤ 8 }
    ensures { (result ≡ 2 ^ j) × (1 ≤ result) × (result ≤ 256) }
{
    1usize << j
}

// The leaves and the nodes with one curve more, while every curve has a depth.
fn with_depth(sums: Option<Foretold>, depth: Option<u32>) -> Option<Foretold>
    requires { (FewSums sums) × (UpToEight depth) }
    ensures { result ≡ sums_with sums depth }
{
    match (sums, depth) {
        (Some(sums), Some(j)) => {
            let more = power(j);
            Some(Foretold {
                leaves: sums.leaves + more,
                nodes: sums.nodes + (2 * more - 1),
            })
        }
        _ => None,
    }
}

// The answer that the sums give: 0 and 0 where a curve has no depth.
fn answer_of(sums: Option<Foretold>) -> Foretold
    ensures { result ≡ sums_answer sums }
{
    sums.unwrap_or(NOTHING)
}

// The depths of an outline without faults that has this many curves, to a list that has room for them.
pub fn depths_of(ns: &[i32], t: u64, m: usize, curves: usize, depths: &mut [i32]) -> Foretold
    requires { (HasRows m) × (Readable (lists m) Outline ns.now curves) × (t ≤ 2 ^ 20)
        × (curves ≤ length depths.old) }
    ensures value { Ok result ≡ foretell_depths (length depths.old)
        (depths_of (lists m) (pos t) (curves_in Outline ns.now curves)) }
    ensures depths_after { depths.new
        ≡ numbers_written (Ok result) (depth_numbers (depths_of (lists m) (pos t) (curves_in Outline ns.now curves)))
        depths.old }
{
    let mut sums = Some(NOTHING);
    let mut at = 0;
    for k in 0..curves {
        let depth = depth_of(curve_at(ns, at), t, m);
        put(depths, k, depth);
        sums = with_depth(sums, depth);
        at = next_at(ns, at);
    }
    answer_of(sums)
}
