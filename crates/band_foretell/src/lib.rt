// Foretelling the leaves of an outline: for each curve the least depth that meets the premise of the depth claim, and
// the leaves and nodes that banding cannot pass, without halving.
#![tactic(auto)]

ghost use Rattle.std.specs.Prelude.{◌≡◌, length};
ghost use Rattle.setting.specs.Setting.{lists};
ghost use Rattle.band_foretold.specs.Foretelling.{foretold, depths_written};

use crate::depths::depths_of;
use band::pieces_fine;
use band_foretold::foretelling::Foretold;
use refusals::Refusal;

pub mod bending;
pub mod depths;
pub mod gaps;
pub mod premise;

// Foretells the leaves of an outline of at most 4,096 curves with m pieces a leaf, at a tolerance in sixteenths. The
// depths stand at the front of the list afterwards, one number a curve, −1 where a curve has none, and what stood
// behind them stays. A refusal alters nothing. Defined for every outline, tolerance, m and list.
pub fn foretell(
    outline: &[i32],
    tolerance: i32,
    m: u32,
    depths: &mut [i32],
) -> Result<Foretold, Refusal>
    ensures value { result ≡ foretold (lists m) tolerance outline.now (length depths.old) }
    ensures depths_after { depths.new
        ≡ depths_written (lists m) tolerance outline.now depths.old }
{
    if !pieces_fine(m) {
        return Err(Refusal::Pieces);
    }
    if !outline_checks::tolerance_fine(tolerance) {
        return Err(Refusal::Tolerance);
    }
    let curves = outline_checks::check_outline(outline, 4096, m)?;
    if depths.len() < curves {
        return Err(Refusal::TooFewRecords(curves));
    }
    Ok(depths_of(outline, tolerance as u64, m as usize, curves, depths))
}
