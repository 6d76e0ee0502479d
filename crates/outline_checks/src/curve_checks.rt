// Checks 2, 20, 3, 4 and 17 of one curve of an outline.
ghost use Rattle.std.specs.Prelude.{◌≡◌, ◌+◌, ◌-◌, ◌≤◌, ◌<◌, length};
ghost use Rattle.setting.specs.Setting.{degree_pieces};
ghost use Rattle.outline.specs.{Faults.{first_beyond, meets_before, fault_at}, Inside.{found_of, fault_of}};

use outline_reading::outline_curves::{degree_at, next_at};
use refusals::Refusal;

// Check 4: the first index from `from` up to `end` of a number that is no coordinate.
pub fn first_beyond(ns: &[i32], from: usize, end: usize) -> Option<usize>
    requires { (from ≤ end) × (end ≤ length ns.now) }
    ensures { result ≡ found_of (first_beyond ns.now (end - from) from) }
{
    for i in from..end {
        if !(-1048576..=1048576).contains(&ns[i]) {
            return Some(i);
        }
    }
    None
}

// Check 17: whether the curve whose degree stands at index `at` begins where the curve before it ends. That point is
// the two numbers before `at`; the first curve has none before it.
fn meets_before(ns: &[i32], at: usize) -> bool
    requires { at + 2 < length ns.now }
    ensures { result ≡ meets_before ns.now at }
{
    at < 2 || (ns[at - 2] == ns[at + 1] && ns[at - 1] == ns[at + 2])
}

// Check 20: whether a degree takes m pieces.
pub fn takes_pieces(degree: u32, m: u32) -> bool
    ensures { result ≡ degree_pieces degree m }
{
    degree <= 3 || 3 <= m
}

// Checks 2, 20, 3, 4 and 17 of the curve whose degree stands at index `at`, for m pieces.
pub fn fault_at(ns: &[i32], at: usize, m: u32) -> Result<(), Refusal>
    requires { at < length ns.now }
    ensures { result ≡ fault_of (fault_at m ns.now at) }
{
    if !(1..=5).contains(&ns[at]) {
        return Err(Refusal::Degree(at));
    }
    if !takes_pieces(degree_at(ns, at), m) {
        return Err(Refusal::DegreePieces(at));
    }
    let next = next_at(ns, at);
    if ns.len() < next {
        return Err(Refusal::CutShort(ns.len()));
    }
    if let Some(i) = first_beyond(ns, at + 1, next) {
        return Err(Refusal::Coordinate(i));
    }
    if !meets_before(ns, at) {
        return Err(Refusal::Gap(at));
    }
    Ok(())
}
