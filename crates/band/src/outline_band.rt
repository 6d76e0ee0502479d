// The band of a list without faults: checks 7, 19 and 8, and the records.
ghost use Rattle.std.specs.Prelude.{◌≡◌, min, length};
ghost use Rattle.setting.specs.Setting.{lists_of, relimited, HasRows};
ghost use Rattle.bound_pieces.specs.Inside.{PiecesReady, setting_of};
ghost use Rattle.band_records.specs.Records.{all_records};
ghost use Rattle.band_passes.specs.Inside.{form_of, numbers_of, Readable, curves_in, sixths_of};
ghost use Rattle.band_banded.specs.Banding.{band_curves, written_by};

use band_banded::banding::Banded;
use band_passes::forms::{CurveList, sixths_of};
use band_passes::leaf_count::count;
use band_passes::leaf_writing::write_all;
use band_room::surely_fit;
use bound_pieces::Pieces;
use refusals::Refusal;

// The smaller of two numbers.
pub fn smaller(a: usize, b: usize) -> usize
    ensures { result ≡ min a b }
{
    a.min(b)
}

// Checks 7, 19 and 8, and the records, of a list without faults that has this many curves and may have `most` leaves.
// The rows lent are those of the number of pieces. Where the leaves surely have room they are not counted first.
fn band_by(
    rows: &[i64],
    pieces: Pieces,
    list: CurveList,
    t: i64,
    curves: usize,
    most: usize,
    records: &mut [i32],
) -> Result<Banded, Refusal>
    requires { (PiecesReady pieces rows.now)
        × (Readable (setting_of pieces) (form_of list) (numbers_of list) curves) }
    ensures value { result
        ≡ band_curves (relimited (setting_of pieces) curves most) t
        (curves_in (form_of list.entry) (numbers_of list.entry) curves)
        (length records.old) }
    ensures records_after { records.new
        ≡ written_by result (all_records (setting_of pieces) t 0
        (curves_in (form_of list.entry) (numbers_of list.entry) curves)) records.old }
{
    let m = pieces.m;
    let record_length = 6 + 4 * m;
    let room = smaller(records.len() / record_length, most);
    if !surely_fit(pieces, list, t, curves, room) {
        let leaves = count(rows, pieces, list, t, curves)?;
        if most < leaves {
            return Err(Refusal::TooManyLeaves(leaves));
        }
        if records.len() < record_length * leaves {
            return Err(Refusal::TooFewRecords(leaves));
        }
    }
    let leaves = write_all(records, rows, pieces, list, t, curves) / record_length;
    let nodes = 2 * leaves - curves;
    Ok(Banded {
        curves,
        leaves,
        nodes,
    })
}

// Bands a list without faults for m pieces: their rows are copied out of the table, once. The list that they are put
// into is filled with m first; for zeros the compiler would call the C library.
pub fn band_curves(
    list: CurveList,
    t: i64,
    m: usize,
    curves: usize,
    most: usize,
    records: &mut [i32],
) -> Result<Banded, Refusal>
    requires { (HasRows m)
        × (Readable (lists_of m (sixths_of (form_of list))) (form_of list) (numbers_of list) curves) }
    ensures value { result
        ≡ band_curves (relimited (lists_of m (sixths_of (form_of list.entry))) curves most) t
        (curves_in (form_of list.entry) (numbers_of list.entry) curves)
        (length records.old) }
    ensures records_after { records.new
        ≡ written_by result (all_records (lists_of m (sixths_of (form_of list.entry))) t 0
        (curves_in (form_of list.entry) (numbers_of list.entry) curves)) records.old }
{
    let mut rows = [m as i64; 297];
    bound_row_table::put_rows(&mut rows, m);
    let pieces = bound_pieces::pieces_of(&rows, m, sixths_of(list));
    band_by(&rows, pieces, list, t, curves, most, records)
}
