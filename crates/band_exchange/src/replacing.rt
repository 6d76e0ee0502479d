// The records of one curve of an outline replaced by those of another curve.
ghost use Rattle.std.specs.Prelude.{◌≡◌, ◌+◌, ◌*◌, ◌≤◌, ◌<◌, ◌^◌, Ok};
ghost use lib.{ListN.{length}, Seq.{sets}};
ghost use Rattle.setting.specs.Setting.{lists, HasRows};
ghost use Rattle.outline.specs.Curves.{curve_at};
ghost use Rattle.walk_curve.specs.{Walked.{ends_of}, Inside.{walked_of}};
ghost use Rattle.band_records.specs.Records.{records_of};
ghost use Rattle.band_passes.specs.{Forms.{Outline}, Inside.{Readable}};
ghost use Rattle.band_exchange.specs.Inside.{renumbered, Front, Replaced};

use crate::moving::move_numbers;
use band::outline_band::band_curves;
use band_banded::banding::Banded;
use band_passes::forms::CurveList;
use refusals::Refusal;

// How many leaves a curve given by itself has; or else its first node at the last depth that is too wide. Banding is
// lent too few numbers for a record: so it writes none, and its 8 says how many leaves there are.
fn leaves_in(curve: &[i32], t: i64, m: usize) -> Result<usize, u32>
    requires { (HasRows m) × (Readable (lists m) Outline curve.now 1) }
    ensures { result ≡ walked_of (lists m) t (curve_at curve.now 0) }
{
    let mut none = [1i32; 1];
    match band_curves(CurveList::Outline(curve), t, m, 1, 1048576, &mut none) {
        Ok(banded) => Ok(banded.leaves),
        Err(refusal) => match refusal {
            Refusal::TooWide { curve: _, node } => Err(node),
            _ => Ok(refusal.spot()),
        },
    }
}

// The number of a curve in each of n records, the first of which begins at index `place`.
fn renumber(records: &mut [i32], place: usize, record_length: usize, n: usize, number: u32)
    requires { (place + record_length * n ≤ length records.old) × (0 < record_length) × (number < 2 ^ 31) }
    ensures { records.new ≡ renumbered records.old place record_length n number }
{
    for i in 0..n {
        records[place + record_length * i] = number as i32;
    }
}

// The records of the n leaves of a curve given by itself, as those of the curve of this number, from index `place` up
// to `over`.
fn write_new(
    records: &mut [i32],
    place: usize,
    over: usize,
    curve: &[i32],
    t: i64,
    m: usize,
    n: usize,
    number: u32,
)
    requires { (HasRows m) × (Readable (lists m) Outline curve.now 1)
        × (Ok n ≡ walked_of (lists m) t (curve_at curve.now 0)) × (over ≡ place + (6 + 4 * m) * n)
        × (over ≤ length records.old) × (number < 2 ^ 31) }
    ensures { records.new ≡ sets records.old place (records_of (lists m) number
        (curve_at curve.now 0) (ends_of (lists m) t (curve_at curve.now 0))) }
{
    let _ = band_curves(
        CurveList::Outline(curve),
        t,
        m,
        1,
        1048576,
        &mut records[place..over],
    );
    renumber(records, place, 6 + 4 * m, n, number);
}

// Checks 7 and 8 and the records of an outline of so many curves, whose curve of this number has given way to another.
// At the front of the list stand the records of the outline as it was, up to `whole`; those of the old curve from
// `place` up to `end`.
pub fn replace(
    records: &mut [i32],
    m: usize,
    t: i64,
    curves: usize,
    whole: usize,
    number: usize,
    curve: &[i32],
    place: usize,
    end: usize,
) -> Result<Banded, Refusal>
    requires { (HasRows m) × (Readable (lists m) Outline curve.now 1)
        × (Front (lists m) t records.old curves whole number place end) }
    ensures { Replaced (lists m) t records.old curves whole number place end
        (curve_at curve.now 0) result records.new }
{
    match leaves_in(curve, t, m) {
        Err(node) => Err(Refusal::TooWide {
            curve: number as u32,
            node,
        }),
        Ok(n) => {
            let record_length = 6 + 4 * m;
            let leaves = (whole - (end - place)) / record_length + n;
            if records.len() < record_length * leaves {
                return Err(Refusal::TooFewRecords(leaves));
            }
            let over = place + record_length * n;
            move_numbers(records, end, over, whole - end);
            write_new(records, place, over, curve, t, m, n, number as u32);
            let nodes = 2 * leaves - curves;
            Ok(Banded {
                curves,
                leaves,
                nodes,
            })
        }
    }
}
