// Checks 1 to 6, 17 and 20 of a tolerance and an outline, in their order.
#![tactic(auto)]

ghost use Rattle.std.specs.Prelude.{◌≡◌};
ghost use Rattle.outline.specs.{Checks.{tolerance_fine, outlined}, Inside.{checked_of}};

use crate::curve_checks::fault_at;
use outline_reading::outline_curves::next_at;
use refusals::Refusal;

pub mod curve_checks;

// Check 1: whether a tolerance, in sixteenths of a unit, is in its range. Defined for every number.
pub fn tolerance_fine(t: i32) -> bool
    ensures { result ≡ tolerance_fine t }
{
    (2..=1048576).contains(&t)
}

// Checks 2 to 6, 17 and 20 of an outline that may have `most` curves, for m pieces, in their order: how many curves it
// has, or the first fault. Defined for every list, `most` and m.
pub fn check_outline(ns: &[i32], most: usize, m: u32) -> Result<usize, Refusal>
    ensures { result ≡ checked_of (outlined most m ns.now) }
{
    if ns.is_empty() {
        return Err(Refusal::EmptyOutline);
    }
    // No `for` would be plainer: how far on the next curve begins stands in the list.
    let mut at = 0;
    let mut count = 0;
    while at < ns.len() {
        if count == most {
            return Err(Refusal::TooManyCurves(at));
        }
        fault_at(ns, at, m)?;
        at = next_at(ns, at);
        count += 1;
    }
    Ok(count)
}
