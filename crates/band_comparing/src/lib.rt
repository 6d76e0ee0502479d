// One pass over the curves of an outline that finds check 7 and compares the records of their leaves with numbers that
// are given, without a list of its own.
#![tactic(auto)]

ghost use Rattle.std.specs.Prelude.{◌≡◌, ◌≤◌, ◌<◌, ◌^◌, length};
ghost use Rattle.setting.specs.Setting.{lists, deepest};
ghost use Rattle.bound_coordinate.specs.Inside.{Small};
ghost use Rattle.band_passes.specs.{Inside.{Readable}, Forms.{Outline}};
ghost use Rattle.band_comparing.specs.Inside.{Lent, Tryable, seen_of, later_of, compared_of};

use crate::trying::{Scaling, try_node};
use curve_nodes::Curve;
use outline_reading::curve_values::curve_at;
use outline_reading::outline_curves::next_at;
use refusals::Refusal;
use walk_curve::Part;

pub mod reaching;
pub mod trying;

// What the walk of a curve finds where no node is too wide: where the curve's records end, and how far the numbers
// given agree.
#[derive(Clone, Copy)]
pub struct Seen {
    pub place: usize,
    pub reach: usize,
}

// The first node at the last depth of a curve of this degree.
fn last_of(degree: u32) -> u32
    ensures { result ≡ 2 ^ deepest degree }
{
    if degree <= 3 { 256 } else { 16 }
}

// One curve, whose records begin at index `at`; or else the first node at the last depth that is too wide.
fn see_curve(
    given: &[i32],
    reach: usize,
    at: usize,
    rows: &[i64],
    by: Scaling,
    number: u32,
    curve: Curve,
    t: i64,
) -> Result<Seen, u32>
    requires { (Tryable given.now reach at (2 ^ 40) by.m by.scale rows.now 0 curve t)
        × (number < 2 ^ 31) }
    ensures { result ≡ seen_of (lists by.m) t curve number given.now reach at }
{
    let m = by.m;
    let record_length = 6 + 4 * m;
    let last = last_of(curve.degree);
    let mut part = Part { node: 1, curve };
    let mut place = at;
    let mut to = reach;
    loop {
        let node = part.node;
        let own = part.curve;
        match try_node(given, to, place, number, node, rows, by, own, t) {
            None => {
                if last <= node {
                    return Err(node);
                }
                part = part.left();
            }
            Some(n) => {
                to = n;
                place += record_length;
                part = part.after();
                if part.node == 1 {
                    return Ok(Seen { place, reach: to });
                }
            }
        }
    }
}

// Where a curve stands: the index of its degree in the outline, and that of its records.
#[derive(Clone, Copy)]
pub struct Stand {
    pub at: usize,
    pub place: usize,
}

// The curve at hand, if `on`, or else the one before.
fn later(on: bool, here: Stand, before: Stand) -> Stand
    ensures { result ≡ later_of on here before }
{
    if on { here } else { before }
}

// What the pass finds: where one curve and the one after it stand, where all records end, and how far the numbers given
// agree with them.
#[derive(Clone, Copy)]
pub struct Compared {
    pub first: Stand,
    pub second: Stand,
    pub whole: usize,
    pub reach: usize,
}

// All curves of an outline, or else the refusal of check 7; `shown` of the numbers given are compared. The rows lent
// are those of m pieces, and the scale is 5040 over m.
pub fn compare(
    given: &[i32],
    shown: usize,
    rows: &[i64],
    m: usize,
    scale: usize,
    ns: &[i32],
    t: i64,
    curves: usize,
    number: usize,
) -> Result<Compared, Refusal>
    requires { (shown ≤ length given.now) × (Lent m scale rows.now) × (Small (2 ^ 27) t)
        × (Readable (lists m) Outline ns.now curves) }
    ensures { result ≡ compared_of (lists m) t ns.now curves number given.now shown }
{
    let by = Scaling { m, scale };
    let mut here = Stand { at: 0, place: 0 };
    let mut first = Stand { at: 0, place: 0 };
    let mut second = Stand { at: 0, place: 0 };
    let mut reach = shown;
    for k in 0..curves {
        let curve = curve_at(ns, here.at);
        let at = next_at(ns, here.at);
        match see_curve(given, reach, here.place, rows, by, k as u32, curve, t) {
            Ok(seen) => {
                here = Stand {
                    at,
                    place: seen.place,
                };
                reach = seen.reach;
            }
            Err(node) => {
                return Err(Refusal::TooWide {
                    curve: k as u32,
                    node,
                });
            }
        }
        first = later(k < number, here, first);
        second = later(k <= number, here, second);
    }
    Ok(Compared {
        first,
        second,
        whole: here.place,
        reach,
    })
}
