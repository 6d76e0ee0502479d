// The first pass over the curves of a list: it counts their leaves or finds a node that is still too wide.
ghost use Rattle.std.specs.Prelude.{◌≡◌};
ghost use Rattle.bound_pieces.specs.Inside.{PiecesReady, setting_of};
ghost use Rattle.band_passes.specs.Inside.{form_of, numbers_of, Readable, curves_in, counted_of};

use crate::forms::{CurveList, curve_at, next_of};
use bound_pieces::Pieces;
use refusals::Refusal;
use walk_curve::walk;

// How many leaves a list without faults has that gives this many curves, or the refusal of check 7. The rows lent are
// those of the number of pieces.
pub fn count(
    rows: &[i64],
    pieces: Pieces,
    list: CurveList,
    t: i64,
    curves: usize,
) -> Result<usize, Refusal>
    requires { (PiecesReady pieces rows.now)
        × (Readable (setting_of pieces) (form_of list) (numbers_of list) curves) }
    ensures { result ≡ counted_of (setting_of pieces) t
        (curves_in (form_of list.entry) (numbers_of list.entry) curves) }
{
    let mut leaves: usize = 0;
    let mut at: usize = 0;
    for k in 0..curves {
        let curve = curve_at(list, at);
        at = next_of(list, at);
        match walk(rows, pieces, curve, t) {
            Ok(n) => {
                leaves += n;
            }
            Err(node) => {
                return Err(Refusal::TooWide {
                    curve: k as u32,
                    node,
                });
            }
        }
    }
    Ok(leaves)
}
