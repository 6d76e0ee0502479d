// The tightest band of an outline without faults: the span of tolerances, halved until one is left.
ghost use Rattle.std.specs.Prelude.{◌≡◌, Ok};
ghost use Rattle.setting.specs.Setting.{lists, HasRows};
ghost use Rattle.band_passes.specs.{Forms.{Outline}, Inside.{Readable, curves_in}};
ghost use Rattle.band_tightest.specs.Tightest.{too_tight, tightest_of};

use band::outline_band::band_curves;
use band_passes::forms::CurveList;
use refusals::Refusal;

// Whether a tolerance does not fit: something is too wide at it, or there are more than `most` leaves. Banding is told
// to take no more, and is lent a single number, so it writes nothing: where the tolerance fits, it asks for records.
fn too_tight(ns: &[i32], m: usize, curves: usize, most: usize, t: u32) -> bool
    requires { (HasRows m) × (Readable (lists m) Outline ns.now curves) }
    ensures { result ≡ too_tight (lists m) (curves_in Outline ns.now curves) most t }
{
    let mut lent = [0i32; 1];
    let list = CurveList::Outline(ns);
    match band_curves(list, t as i64, m, curves, most, &mut lent) {
        Ok(_) => false,
        Err(refusal) => !matches!(refusal, Refusal::TooFewRecords(_)),
    }
}

// The least tolerance that fits an outline of this many curves, with m pieces a leaf, if one does. Where one fits,
// every larger one does: so `low` and all below it do not, and `high` does.
pub fn tightest_curves(ns: &[i32], m: usize, curves: usize, most: usize) -> Option<u32>
    requires { (HasRows m) × (Readable (lists m) Outline ns.now curves) }
    ensures { Ok result ≡ tightest_of (lists m) (curves_in Outline ns.now curves) most }
{
    if too_tight(ns, m, curves, most, 1048576) {
        return None;
    }
    let mut low = 1;
    let mut high = 1048576;
    while low + 1 < high {
        let middle = (low + high) / 2;
        if too_tight(ns, m, curves, most, middle) {
            low = middle;
        } else {
            high = middle;
        }
    }
    Some(high)
}
