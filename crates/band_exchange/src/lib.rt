// Exchanging one curve of an outline whose records are there.
#![tactic(auto)]

ghost use Rattle.std.specs.Prelude.{◌≡◌, ◌&&◌, ◌^◌, Ok};
ghost use lib.{Dec.{eqb}, ListN.{length}};
ghost use Rattle.setting.specs.Setting.{lists, HasRows};
ghost use Rattle.bound_coordinate.specs.Inside.{Small};
ghost use Rattle.outline.specs.{Checks.{outlined}, Inside.{checked_of}};
ghost use Rattle.outline_changed.specs.Changed.{changed};
ghost use Rattle.band_banded.specs.Banding.{band_outlined, written_by};
ghost use Rattle.band_exchanged.specs.Exchange.{records_for, exchanged, exchanged_list};
ghost use Rattle.band_exchange.specs.Inside.{exchanged_read, Exchangeable};

use crate::replacing::replace;
use band_banded::banding::Banded;
use band_comparing::{Stand, compare};
use outline_changed::changed_fault;
use refusals::Refusal;

pub mod moving;
pub mod replacing;

// Puts another curve in the place of one curve of an outline whose records stand at the front of a lent list, `given`
// numbers of them: the list and the answer are then those of banding the changed outline into that list. The new curve
// is its degree and six points, of which those past the degree are not read. A refusal alters nothing. Defined for
// every outline, tolerance, m, curve number, curve, count and list.
pub fn exchange(
    outline: &[i32],
    tolerance: i32,
    m: u32,
    number: usize,
    curve: [i32; 13],
    given: usize,
    records: &mut [i32],
) -> Result<Banded, Refusal>
    ensures value { result
        ≡ exchanged (lists m) tolerance outline.now number curve given records.old }
    ensures records_after { records.new
        ≡ exchanged_list (lists m) tolerance outline.now number curve given records.old }
{
    if !band::pieces_fine(m) {
        return Err(Refusal::Pieces);
    }
    if !outline_checks::tolerance_fine(tolerance) {
        return Err(Refusal::Tolerance);
    }
    let curves = outline_checks::check_outline(outline, 4096, m)?;
    exchange_in(
        outline,
        tolerance as i64,
        m as usize,
        curves,
        number,
        &curve,
        given,
        records,
    )
}

// The checks from 7 on of an outline without faults that has this many curves, for m pieces, whose rows are copied out
// of the table: 7, then 22 and 23.
fn exchange_in(
    ns: &[i32],
    t: i64,
    m: usize,
    curves: usize,
    number: usize,
    curve: &[i32],
    given: usize,
    records: &mut [i32],
) -> Result<Banded, Refusal>
    requires { (HasRows m) × (Ok curves ≡ checked_of (outlined 4096 m ns.now)) × (length curve.now ≡ 13)
        × (Small (2 ^ 27) t) }
    ensures value { result
        ≡ exchanged_read (lists m) t ns.now number curve.now given records.old }
    ensures records_after { records.new
        ≡ written_by result (records_for (lists m) t (changed ns.now number curve.now))
        records.old }
{
    let mut rows = [m as i64; 297];
    bound_row_table::put_rows(&mut rows, m);
    let shown = given.min(records.len());
    let found = compare(records, shown, &rows, m, 5040 / m, ns, t, curves, number)?;
    let whole = found.whole;
    if curves <= number {
        return Err(Refusal::NoSuchCurve(number));
    }
    if !are_records(found.reach, given, whole) {
        return Err(Refusal::OtherRecords(found.reach.min(whole)));
    }
    exchange_by(
        records,
        m,
        ns,
        t,
        curves,
        number,
        curve,
        found.first,
        found.second,
        whole,
    )
}

// Whether numbers that agree as far as `reach` are all records: as many are given, and as many are the whole.
fn are_records(reach: usize, given: usize, whole: usize) -> bool
    ensures { result ≡ (eqb reach given && eqb given whole) }
{
    reach == given && given == whole
}

// The checks of the changed outline, and its records. The outline passed all of its own; its records are the first
// `whole` numbers of the list. `first` is where the curve stands that gives way, and `second` the one after it.
fn exchange_by(
    records: &mut [i32],
    m: usize,
    ns: &[i32],
    t: i64,
    curves: usize,
    number: usize,
    curve: &[i32],
    first: Stand,
    second: Stand,
    whole: usize,
) -> Result<Banded, Refusal>
    requires { (HasRows m) × (length curve.now ≡ 13)
        × (Exchangeable (lists m) t ns.now curves number first second whole records.old) }
    ensures value { result
        ≡ band_outlined (lists m) t (outlined 4096 m (changed ns.now number curve.now))
        (length records.old) }
    ensures records_after { records.new
        ≡ written_by result (records_for (lists m) t (changed ns.now number curve.now))
        records.old }
{
    changed_fault(ns, first.at, second.at, curve, m as u32)?;
    replace(
        records,
        m,
        t,
        curves,
        whole,
        number,
        curve,
        first.place,
        second.place,
    )
}
