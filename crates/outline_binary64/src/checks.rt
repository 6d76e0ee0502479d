// Checks 2 to 6, 17, 20 and 21 of an outline in binary64, in their order.
ghost use Rattle.std.specs.Prelude.{◌≡◌, true, ◌+◌, ◌-◌, ◌≤◌, ◌<◌, length};
ghost use Rattle.integers.specs.Entry.{entry};
ghost use Rattle.refusals.specs.declared.Refusal.TheVariants.{Coordinate};
ghost use Rattle.binary64.specs.Read.{read_of};
ghost use Rattle.outline.specs.{Curves.{degree_fine}, Faults.{coordinate_fine, first_beyond, meets_before, fault_at}};
ghost use Rattle.outline.specs.Inside.{found_of, fault_of, checked_of};
ghost use Rattle.outline_binary64.specs.{Lists.{number_for, wholes, named, outlined_binary64}, Inside.{fault_named}};

use crate::reading::{degree_at, next_at};
use binary64::{is_near, is_whole, near_number};
use outline_checks::curve_checks::takes_pieces;
use refusals::Refusal;

// Check 2: whether a number is exactly a degree.
fn is_degree(x: f64) -> bool
    ensures { result ≡ degree_fine (number_for (read_of x)) }
{
    is_near(x) && (1..=5).contains(&near_number(x))
}

// Checks 21 and 4: the first index from `from` up to `end` of a number that is no coordinate.
fn first_beyond(xs: &[f64], from: usize, end: usize) -> Option<usize>
    requires { (from ≤ end) × (end ≤ length xs.now) }
    ensures { result ≡ found_of (first_beyond (wholes xs.now) (end - from) from) }
{
    for i in from..end {
        if !is_near(xs[i]) {
            return Some(i);
        }
    }
    None
}

// Which of the two it is.
fn coordinate_fault(xs: &[f64], i: usize) -> Refusal
    requires { i < length xs.now }
    ensures { result ≡ named xs.now (Coordinate i) }
{
    if is_whole(xs[i]) {
        Refusal::Coordinate(i)
    } else {
        Refusal::NotWhole(i)
    }
}

// Check 17: whether the curve whose degree stands at index `at` begins where the curve before it ends. That point is
// the two numbers before `at`; the first curve has none before it. A zero of either sign is 0.
fn meets_before(xs: &[f64], at: usize) -> bool
    requires { (at + 2 < length xs.now) × (coordinate_fine (entry (wholes xs.now) (at + 1)) ≡ true)
        × (coordinate_fine (entry (wholes xs.now) (at + 2)) ≡ true) }
    ensures { result ≡ meets_before (wholes xs.now) at }
{
    at < 2 || (xs[at - 2] == xs[at + 1] && xs[at - 1] == xs[at + 2])
}

// Checks 2, 20, 3, 21 or 4, and 17 of the curve whose degree stands at index `at`, for m pieces.
fn fault_at(xs: &[f64], at: usize, m: u32) -> Result<(), Refusal>
    requires { at < length xs.now }
    ensures { result ≡ fault_named xs.now (fault_of (fault_at m (wholes xs.now) at)) }
{
    if !is_degree(xs[at]) {
        return Err(Refusal::Degree(at));
    }
    if !takes_pieces(degree_at(xs, at), m) {
        return Err(Refusal::DegreePieces(at));
    }
    let next = next_at(xs, at);
    if xs.len() < next {
        return Err(Refusal::CutShort(xs.len()));
    }
    if let Some(i) = first_beyond(xs, at + 1, next) {
        return Err(coordinate_fault(xs, i));
    }
    if !meets_before(xs, at) {
        return Err(Refusal::Gap(at));
    }
    Ok(())
}

// Checks 2 to 6, 17, 20 and 21 of an outline that may have `most` curves, for m pieces, in their order: how many curves
// it has, or the first fault. Defined for every list, `most` and m.
pub fn check_outline(xs: &[f64], most: usize, m: u32) -> Result<usize, Refusal>
    ensures { result ≡ checked_of (outlined_binary64 most m xs.now) }
{
    if xs.is_empty() {
        return Err(Refusal::EmptyOutline);
    }
    // No `for` would be plainer: how far on the next curve begins stands in the list.
    let mut at = 0;
    let mut count = 0;
    while at < xs.len() {
        if count == most {
            return Err(Refusal::TooManyCurves(at));
        }
        fault_at(xs, at, m)?;
        at = next_at(xs, at);
        count += 1;
    }
    Ok(count)
}
