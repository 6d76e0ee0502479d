// Banding and judging together. Demand 3 as one theorem stands in the crate `demand_3`.
#![tactic(auto)]

ghost use Rattle.std.specs.Prelude.{◌≡◌, length};
ghost use Rattle.setting.specs.Setting.{lists};
ghost use Rattle.band_banded.specs.Banding.{banded};
ghost use Rattle.engine.specs.{Outcomes.{written_for, Answered}, Inside.{refusal_or}};

use band_banded::banding::Banded;
use judge::judging::Holder;
use refusals::Refusal;

// What banding an outline and judging a point answers: banding's report, and the first record and cover that hold the
// point, where it is on.
#[derive(Clone, Copy)]
pub struct Outcome {
    pub banded: Banded,
    pub holder: Option<Holder>,
}

// Puts a band of m pieces a leaf round an outline, writes the leaves' records to the front of the list, and judges the
// point (x, y) against exactly these records. A refusal alters nothing, also that of the point.
pub fn band_and_judge(
    outline: &[i32],
    tolerance: i32,
    m: u32,
    records: &mut [i32],
    x: i32,
    y: i32,
) -> Result<Outcome, Refusal>
    ensures records_after { records.new
        ≡ written_for (lists m) tolerance outline.now x y records.old }
    ensures answered { Answered (lists m) tolerance outline.now x y records.old result }
{
    if !boxes::in_range(x) {
        return Err(refusal_or(outline, tolerance, m, records, Refusal::PointX));
    }
    if !boxes::in_range(y) {
        return Err(refusal_or(outline, tolerance, m, records, Refusal::PointY));
    }
    let banded = band::band(outline, tolerance, m, records)?;
    let record_length = 6 + 4 * (m as usize);
    let holder = judge::judge(&records[..record_length * banded.leaves], m, x, y)?;
    Ok(Outcome { banded, holder })
}

// What a point out of range gets: banding's refusal, or where there is none that of the point. Banding is lent no
// number of the list: so it writes none, and its 8 says how many leaves there are.
fn refusal_or(ns: &[i32], tolerance: i32, m: u32, records: &mut [i32], point: Refusal) -> Refusal
    ensures records_unchanged { records.new ≡ records.old }
    ensures value { result
        ≡ refusal_or point (banded (lists m) tolerance ns.now (length records.old)) }
{
    let room = records.len();
    let Err(refusal) = band::band(ns, tolerance, m, &mut records[..0]) else {
        return point;
    };
    let Refusal::TooFewRecords(leaves) = refusal else {
        return refusal;
    };
    let record_length = 6 + 4 * (m as usize);
    if room / record_length < leaves {
        refusal
    } else {
        point
    }
}
