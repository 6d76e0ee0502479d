// What a program in another language calls: an export for each function of `contour`, with its name and its contract.
#![tactic(auto)]

ghost use Rattle.std.specs.Prelude.{◌≡◌, length};
ghost use Rattle.setting.specs.Setting.{lists, station};
ghost use Rattle.band_banded.specs.Banding.{banded, written, banded_spline, written_spline, banded_binary64};
ghost use Rattle.band_banded.specs.Banding.{written_binary64};
ghost use Rattle.band_foretold.specs.Foretelling.{foretold, depths_written};
ghost use Rattle.band_tightest.specs.Tightest.{tightest};
ghost use Rattle.judge_points.specs.Points.{points_judged, judged_into};
ghost use Rattle.quote_price.specs.Quote.{quoted};
ghost use Rattle.draw.specs.Drawing.{drawn, drawn_into};
ghost use Rattle.band_exchanged.specs.Exchange.{exchanged, exchanged_list};
ghost use Rattle.engine.specs.Outcomes.{written_for};
ghost use Rattle.contour.specs.{Numbers.{band_answer_of}, Foretellings.{foretold_answer_of}};
ghost use Rattle.contour.specs.{Tightest.{tightest_answer_of}, Points.{points_answer_of}, Quotes.{quote_answer_of}};
ghost use Rattle.contour.specs.{Drawings.{drawing_of}, BoxForms.{UnitsInNumbers, ShortInNumbers}};
ghost use Rattle.contour.specs.{Answers.{JudgedInNumbers, AnsweredInNumbers}, Version.{version}};

use boxes::Box;
use contour::c_answers::{
    Answer, BoxShort, BoxUnits, Drawing, ForetoldAnswer, JudgingAnswer, OutcomeAnswer,
    PointsAnswer, QuoteAnswer, TightestAnswer,
};

// Puts a band of m pieces a leaf round an outline at a tolerance in sixteenths, and writes the leaves' records to the
// front of the list.
#[unsafe(no_mangle)]
pub extern "C" fn contour_band(
    outline: &[i32],
    tolerance: i32,
    m: u32,
    records: &mut [i32],
) -> Answer
    ensures value { result ≡ band_answer_of (banded (lists m) tolerance outline.now
        (length records.old)) }
    ensures records_after { records.new ≡ written (lists m) tolerance outline.now records.old }
{
    contour::contour_band(outline, tolerance, m, records)
}

// Puts a band round an outline as `contour_band` does, for the bench station, which takes 64 curves and 128 leaves.
#[unsafe(no_mangle)]
pub extern "C" fn contour_station_band(
    outline: &[i32],
    tolerance: i32,
    m: u32,
    records: &mut [i32],
) -> Answer
    ensures value { result ≡ band_answer_of (banded (station m) tolerance outline.now
        (length records.old)) }
    ensures records_after { records.new ≡ written (station m) tolerance outline.now
        records.old }
{
    contour::contour_station_band(outline, tolerance, m, records)
}

// Puts a band round a uniform cubic B-spline, given by its points: x and y of each.
#[unsafe(no_mangle)]
pub extern "C" fn contour_spline_band(
    points: &[i32],
    tolerance: i32,
    m: u32,
    records: &mut [i32],
) -> Answer
    ensures value { result ≡ band_answer_of (banded_spline m tolerance points.now
        (length records.old)) }
    ensures records_after { records.new ≡ written_spline m tolerance points.now records.old }
{
    contour::contour_spline_band(points, tolerance, m, records)
}

// Puts a band round an outline in binary64: degrees and coordinates are f64.
#[unsafe(no_mangle)]
pub extern "C" fn contour_binary64_band(
    outline: &[f64],
    tolerance: i32,
    m: u32,
    records: &mut [i32],
) -> Answer
    ensures value { result ≡ band_answer_of (banded_binary64 m tolerance outline.now
        (length records.old)) }
    ensures records_after { records.new ≡ written_binary64 m tolerance outline.now records.old }
{
    contour::contour_binary64_band(outline, tolerance, m, records)
}

// Foretells the leaves of an outline at a tolerance in sixteenths, with m pieces a leaf, and writes the depths of its
// curves to the front of the list.
#[unsafe(no_mangle)]
pub extern "C" fn contour_foretell(
    outline: &[i32],
    tolerance: i32,
    m: u32,
    depths: &mut [i32],
) -> ForetoldAnswer
    ensures value { result ≡ foretold_answer_of (foretold (lists m) tolerance outline.now
        (length depths.old)) }
    ensures depths_after { depths.new ≡ depths_written (lists m) tolerance outline.now
        depths.old }
{
    contour::contour_foretell(outline, tolerance, m, depths)
}

// The least tolerance, in sixteenths, at which an outline has a band of at most so many leaves, with m pieces a leaf.
#[unsafe(no_mangle)]
pub extern "C" fn contour_tightest(outline: &[i32], m: u32, leaves: usize) -> TightestAnswer
    ensures { result ≡ tightest_answer_of (tightest (lists m) outline.now leaves) }
{
    contour::contour_tightest(outline, m, leaves)
}

// Exchanges one curve of an outline whose records stand at the front of the list, `given` numbers of them, for another:
// its degree and six points, of which those past the degree are not read.
#[unsafe(no_mangle)]
pub extern "C" fn contour_exchange(
    outline: &[i32],
    tolerance: i32,
    m: u32,
    number: usize,
    curve: &[i32; 13],
    given: usize,
    records: &mut [i32],
) -> Answer
    ensures value { result ≡ band_answer_of (exchanged (lists m) tolerance outline.now number curve.now
        given records.old) }
    ensures records_after { records.new ≡ exchanged_list (lists m) tolerance outline.now number
        curve.now given records.old }
{
    contour::contour_exchange(outline, tolerance, m, number, curve, given, records)
}

// Judges the point (x, y), in sixteenths, against a list of leaf records of m pieces.
#[unsafe(no_mangle)]
pub extern "C" fn contour_judge(leaves: &[i32], m: u32, x: i32, y: i32) -> JudgingAnswer
    ensures { JudgedInNumbers (lists m) leaves.now x y result }
{
    contour::contour_judge(leaves, m, x, y)
}

// Judges points, x and y of each in sixteenths, against a list of leaf records of m pieces, and writes three numbers
// for each to the front of the list.
#[unsafe(no_mangle)]
pub extern "C" fn contour_judge_points(
    leaves: &[i32],
    m: u32,
    points: &[i32],
    answers: &mut [i64],
) -> PointsAnswer
    ensures value { result ≡ points_answer_of (points_judged (lists m) leaves.now points.now
        (length answers.old)) }
    ensures answers_after { answers.new ≡ judged_into (lists m) leaves.now points.now
        answers.old }
{
    contour::contour_judge_points(leaves, m, points, answers)
}

// Quotes a list of leaf records of m pieces, in cents.
#[unsafe(no_mangle)]
pub extern "C" fn contour_quote(leaves: &[i32], m: u32) -> QuoteAnswer
    ensures { result ≡ quote_answer_of (quoted (lists m) leaves.now) }
{
    contour::contour_quote(leaves, m)
}

// Bands an outline with m pieces a leaf, and judges the point (x, y) against exactly the records written. A refusal
// alters nothing.
#[unsafe(no_mangle)]
pub extern "C" fn contour_band_and_judge(
    outline: &[i32],
    tolerance: i32,
    m: u32,
    records: &mut [i32],
    x: i32,
    y: i32,
) -> OutcomeAnswer
    ensures records_after { records.new ≡ written_for (lists m) tolerance outline.now x y
        records.old }
    ensures answered_in_numbers { AnsweredInNumbers (lists m) tolerance outline.now x y records.old result }
{
    contour::contour_band_and_judge(outline, tolerance, m, records, x, y)
}

// Draws the convex hull of two boxes, and writes x and y of its vertices to the front of the list.
#[unsafe(no_mangle)]
pub extern "C" fn contour_draw(first: Box, second: Box, vertices: &mut [i32]) -> Drawing
    ensures value { result ≡ drawing_of (drawn first second (length vertices.old)) }
    ensures vertices_after { vertices.new ≡ drawn_into first second vertices.old }
{
    contour::contour_draw(first, second, vertices)
}

// Hands a box out in binary64, in stage units.
#[unsafe(no_mangle)]
pub extern "C" fn contour_box_units(b: Box) -> BoxUnits
    ensures { UnitsInNumbers b result }
{
    contour::contour_box_units(b)
}

// The short form of a box in binary64: a point, or the middle with half of the width and of the height.
#[unsafe(no_mangle)]
pub extern "C" fn contour_box_short(b: Box) -> BoxShort
    ensures { ShortInNumbers b result }
{
    contour::contour_box_short(b)
}

// The version of this interface, as a number: 10000 × its first, 100 × its second and its third part.
#[unsafe(no_mangle)]
pub extern "C" fn contour_version() -> u32
    ensures { result ≡ version }
{
    contour::contour_version()
}
