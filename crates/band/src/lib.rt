// Banding: the leaves of an outline at a tolerance, as records.
#![tactic(auto)]

ghost use Rattle.std.specs.Prelude.{◌≡◌, ◌≤◌, length};
ghost use Rattle.setting.specs.Setting.{lists, station, limited, pieces_fine};
ghost use Rattle.outline.specs.Inside.{checked_of};
ghost use Rattle.band_passes.specs.Inside.{form_of};
ghost use Rattle.band_banded.specs.Banding.{band_given, written_given, banded, written, banded_spline, written_spline};
ghost use Rattle.band_banded.specs.{Banding.{banded_binary64, written_binary64}, Inside.{given_of, setting_for}};

use crate::outline_band::band_curves;
use band_banded::banding::Banded;
use band_passes::forms::CurveList;
use refusals::Refusal;

pub mod outline_band;

// Check 18: whether there are rows for m pieces. It takes every number.
pub fn pieces_fine(m: u32) -> bool
    ensures { result ≡ pieces_fine m }
{
    (1..=8).contains(&m)
}

// Puts a band of m pieces a leaf round an outline of at most 4,096 curves, at a tolerance in sixteenths: the leaves'
// records stand at the front of the list afterwards, and what stood behind them stays. A refusal alters nothing. Every
// outline, tolerance, m and list is taken.
pub fn band(outline: &[i32], tolerance: i32, m: u32, records: &mut [i32]) -> Result<Banded, Refusal>
    ensures value { result ≡ banded (lists m) tolerance outline.now (length records.old) }
    ensures records_after { records.new
        ≡ written (lists m) tolerance outline.now records.old }
{
    band_most(outline, 4096, 1048576, tolerance, m, records)
}

// Bands an outline for the bench station, which takes 64 curves and 128 leaves.
pub fn station_band(
    outline: &[i32],
    tolerance: i32,
    m: u32,
    records: &mut [i32],
) -> Result<Banded, Refusal>
    ensures value { result ≡ banded (station m) tolerance outline.now (length records.old) }
    ensures records_after { records.new
        ≡ written (station m) tolerance outline.now records.old }
{
    band_most(outline, 64, 128, tolerance, m, records)
}

// Bands a uniform cubic B-spline, which is given by its points.
pub fn spline_band(
    points: &[i32],
    tolerance: i32,
    m: u32,
    records: &mut [i32],
) -> Result<Banded, Refusal>
    ensures value { result ≡ banded_spline m tolerance points.now (length records.old) }
    ensures records_after { records.new
        ≡ written_spline m tolerance points.now records.old }
{
    band_list(
        CurveList::Spline(points),
        4096,
        1048576,
        tolerance,
        m,
        records,
    )
}

// Bands an outline of at most 4,096 curves in binary64: degrees and coordinates are f64.
pub fn binary64_band(
    outline: &[f64],
    tolerance: i32,
    m: u32,
    records: &mut [i32],
) -> Result<Banded, Refusal>
    ensures value { result ≡ banded_binary64 m tolerance outline.now (length records.old) }
    ensures records_after { records.new
        ≡ written_binary64 m tolerance outline.now records.old }
{
    band_list(
        CurveList::Binary64(outline),
        4096,
        1048576,
        tolerance,
        m,
        records,
    )
}

// Bands an outline that may have `most` curves and `leaves` leaves.
pub fn band_most(
    outline: &[i32],
    most: usize,
    leaves: usize,
    tolerance: i32,
    m: u32,
    records: &mut [i32],
) -> Result<Banded, Refusal>
    requires { most ≤ 65536 }
    ensures value { result
        ≡ banded (limited most leaves m) tolerance outline.now (length records.old) }
    ensures records_after { records.new
        ≡ written (limited most leaves m) tolerance outline.now records.old }
{
    band_list(
        CurveList::Outline(outline),
        most,
        leaves,
        tolerance,
        m,
        records,
    )
}

// The checks of the list that is read, by its form.
fn check_list(list: CurveList, most: usize, m: u32) -> Result<usize, Refusal>
    ensures { result ≡ checked_of (given_of list.entry most m) }
{
    match list {
        CurveList::Outline(ns) => outline_checks::check_outline(ns, most, m),
        CurveList::Binary64(xs) => outline_binary64::checks::check_outline(xs, most, m),
        CurveList::Spline(ns) => outline_splines::check_spline(ns),
    }
}

// The band of the list that is read, by its form, that may have `most` curves and `leaves` leaves.
fn band_list(
    list: CurveList,
    most: usize,
    leaves: usize,
    tolerance: i32,
    m: u32,
    records: &mut [i32],
) -> Result<Banded, Refusal>
    requires { most ≤ 65536 }
    ensures value { result
        ≡ band_given (setting_for (form_of list.entry) most leaves m) tolerance (given_of list.entry most m)
        (length records.old) }
    ensures records_after { records.new
        ≡ written_given (setting_for (form_of list.entry) most leaves m) tolerance
        (given_of list.entry most m) records.old }
{
    if !pieces_fine(m) {
        return Err(Refusal::Pieces);
    }
    if !outline_checks::tolerance_fine(tolerance) {
        return Err(Refusal::Tolerance);
    }
    let curves = check_list(list, most, m)?;
    band_curves(list, tolerance as i64, m as usize, curves, leaves, records)
}
