// An outline in which one curve is exchanged, and its checks: those of the new curve, and 17 of the curve after it. All
// others passed in the outline as it was.
#![tactic(auto)]

ghost use Rattle.std.specs.Prelude.{◌≡◌, true, ◌+◌, ◌≤◌, ◌<◌, ◌^◌, length};
ghost use Rattle.integers.specs.Entry.{entry};
ghost use Rattle.outline.specs.{Curves.{degree_fine}, Inside.{fault_of}};
ghost use Rattle.outline_changed.specs.Inside.{same_point, own_fault, meets_old, meets_next, changed_fault};

use outline_checks::curve_checks::{first_beyond, takes_pieces};
use outline_reading::outline_curves::{degree_at, next_at};
use refusals::Refusal;

// Whether the two numbers from index i of one list on are those from index j of another on.
fn same_point(a: &[i32], i: usize, b: &[i32], j: usize) -> bool
    requires { (i + 1 < length a.now) × (j + 1 < length b.now) }
    ensures { result ≡ same_point a.now i b.now j }
{
    a[i] == b[j] && a[i + 1] == b[j + 1]
}

// Checks 2, 20 and 4 of a curve given by itself, as they are said of it where it stands at index `at` of an outline.
fn own_fault(curve: &[i32], at: usize, m: u32) -> Result<(), Refusal>
    requires { (length curve.now ≡ 13) × (at ≤ 2 ^ 20) }
    ensures { result ≡ fault_of (own_fault m curve.now at) }
{
    if !(1..=5).contains(&curve[0]) {
        return Err(Refusal::Degree(at));
    }
    if !takes_pieces(degree_at(curve, 0), m) {
        return Err(Refusal::DegreePieces(at));
    }
    match first_beyond(curve, 1, next_at(curve, 0)) {
        Some(i) => Err(Refusal::Coordinate(at + i)),
        None => Ok(()),
    }
}

// Check 17 of a curve that is to stand at index `at` of an outline, with what stands before that index.
fn meets_old(ns: &[i32], at: usize, curve: &[i32]) -> bool
    requires { (length curve.now ≡ 13) × (at ≤ length ns.now) }
    ensures { result ≡ meets_old ns.now at curve.now }
{
    at < 2 || same_point(ns, at - 2, curve, 1)
}

// Check 17 of the curve at index `next` of an outline, if there is one, behind a curve given by itself.
fn meets_next(ns: &[i32], next: usize, curve: &[i32]) -> bool
    requires { (length curve.now ≡ 13) × (degree_fine (entry curve.now 0) ≡ true)
        × (next < length ns.now → next + 2 < length ns.now) }
    ensures { result ≡ meets_next ns.now next curve.now }
{
    ns.len() <= next || same_point(curve, next_at(curve, 0) - 2, ns, next + 1)
}

// The first fault of an outline whose curve from index `at` up to `next` gives way to another.
pub fn changed_fault(
    ns: &[i32],
    at: usize,
    next: usize,
    curve: &[i32],
    m: u32,
) -> Result<(), Refusal>
    requires { (length curve.now ≡ 13) × (at ≤ 2 ^ 20) × (at ≤ length ns.now)
        × (next < length ns.now → next + 2 < length ns.now) }
    ensures { result ≡ fault_of (changed_fault m ns.now at next curve.now) }
{
    own_fault(curve, at, m)?;
    if !meets_old(ns, at, curve) {
        return Err(Refusal::Gap(at));
    }
    if !meets_next(ns, next, curve) {
        return Err(Refusal::Gap(at + next_at(curve, 0)));
    }
    Ok(())
}
