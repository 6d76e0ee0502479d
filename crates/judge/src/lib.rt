// Judging: whether a point lies on the band that a leaf list describes.
#![tactic(auto)]

ghost use Rattle.std.specs.Prelude.{◌≡◌};
ghost use Rattle.setting.specs.Setting.{lists, HasRows};
ghost use Rattle.judge.specs.{Judging.{list_fault, Passed, Judged}, Inside.{checked_of}};

use crate::holder::find;
use crate::judging::Holder;
use boxes::in_range;
use judge_list::leaf_faults::number_fault;
use refusals::Refusal;

pub mod beyond;
pub mod holder;
pub mod judging;

// Judges the point (x, y), in sixteenths, against a list of leaf records of m pieces: on, with the first record of the
// list that holds it and in this the lowest cover; off, which is None; or the first fault. Defined for every list,
// every m and every point.
pub fn judge(leaves: &[i32], m: u32, x: i32, y: i32) -> Result<Option<Holder>, Refusal>
    ensures { Judged (lists m) leaves.now x y result }
{
    check_list(leaves, m)?;
    judge_point(leaves, m, x, y)
}

// Checks 18, 9 and 10 of a list of leaf records of m pieces, for every operation that looks at one. Defined for every
// list and every m.
pub fn check_list(leaves: &[i32], m: u32) -> Result<(), Refusal>
    ensures { result ≡ checked_of (list_fault (lists m) leaves.now) }
{
    if !(1..=8).contains(&m) {
        return Err(Refusal::Pieces);
    }
    let length = leaves.len();
    if length == 0 || length % (6 + 4 * (m as usize)) != 0 {
        return Err(Refusal::LeafListLength(length));
    }
    if let Some(bad) = number_fault(leaves, m as usize) {
        return Err(Refusal::LeafListNumber(bad));
    }
    Ok(())
}

// Judges the point (x, y) against a list of records of m pieces that has passed checks 9 and 10: check 11, and the
// first record and cover that hold the point.
pub fn judge_point(leaves: &[i32], m: u32, x: i32, y: i32) -> Result<Option<Holder>, Refusal>
    requires { (HasRows m) × (Passed (lists m) leaves.now) }
    ensures { Judged (lists m) leaves.now x y result }
{
    if !in_range(x) {
        return Err(Refusal::PointX);
    }
    if !in_range(y) {
        return Err(Refusal::PointY);
    }
    Ok(find(leaves, m as usize, x, y))
}
