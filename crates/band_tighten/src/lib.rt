// The tightest band that fits, computed: the least tolerance at which an outline has no more leaves than are taken.
#![tactic(auto)]

ghost use Rattle.std.specs.Prelude.{◌≡◌};
ghost use Rattle.setting.specs.Setting.{lists};
ghost use Rattle.band_tightest.specs.Tightest.{tightest};

use crate::outline_tightest::tightest_curves;
use refusals::Refusal;

pub mod outline_tightest;

// The least tolerance, from 2 to 1,048,576 sixteenths, at which a band of m pieces a leaf round an outline of at most
// 4,096 curves meets no refusal 7 and needs at most `leaves` leaves, or none where every tolerance of that span
// fails. m and the outline are checked as in banding. Defined for every outline, m and number of leaves.
pub fn tightest_band(outline: &[i32], m: u32, leaves: usize) -> Result<Option<u32>, Refusal>
    ensures { result ≡ tightest (lists m) outline.now leaves }
{
    if !band::pieces_fine(m) {
        return Err(Refusal::Pieces);
    }
    let curves = outline_checks::check_outline(outline, 4096, m)?;
    Ok(tightest_curves(outline, m as usize, curves, leaves))
}
