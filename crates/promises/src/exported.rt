// Callers of the functions that `contour` exports to programs in other languages, and of the two operations that go
// through others: banding and judging in one call, and answering a text.
ghost use Rattle.std.specs.Prelude.{◌≡◌, length};
ghost use Rattle.setting.specs.Setting.{lists, station};
ghost use Rattle.band_banded.specs.Banding.{banded, written, banded_spline, written_spline, banded_binary64};
ghost use Rattle.band_banded.specs.Banding.{written_binary64};
ghost use Rattle.band_foretold.specs.Foretelling.{foretold, depths_written};
ghost use Rattle.band_tightest.specs.Tightest.{tightest};
ghost use Rattle.judge_points.specs.Points.{points_judged, judged_into};
ghost use Rattle.quote_price.specs.Quote.{quoted};
ghost use Rattle.draw.specs.Drawing.{drawn, drawn_into};
ghost use Rattle.band_exchanged.specs.Exchange.{exchanged, exchanged_list};
ghost use Rattle.engine.specs.Outcomes.{written_for, Answered};
ghost use Rattle.contour.specs.{Numbers.{band_answer_of}, Foretellings.{foretold_answer_of}};
ghost use Rattle.contour.specs.{Tightest.{tightest_answer_of}};
ghost use Rattle.contour.specs.{Points.{points_answer_of}, Quotes.{quote_answer_of}, Drawings.{drawing_of}};
ghost use Rattle.contour.specs.BoxForms.{UnitsInNumbers, ShortInNumbers};
ghost use Rattle.contour.specs.{Answers.{JudgedInNumbers, AnsweredInNumbers}, Version.{version}};
ghost use Rattle.write_numbers.specs.Appends.{PutWithin};
ghost use Rattle.text_answers.specs.Answers.{answer_of};

use boxes::Box;
use contour::c_answers::{
    Answer, BoxShort, BoxUnits, Drawing, ForetoldAnswer, JudgingAnswer, OutcomeAnswer,
    PointsAnswer, QuoteAnswer, TightestAnswer,
};
use engine::Outcome;
use refusals::Refusal;

pub fn contour_band(outline: &[i32], tolerance: i32, m: u32, records: &mut [i32]) -> Answer
    ensures value { result ≡ band_answer_of (banded (lists m) tolerance outline.now
        (length records.old)) }
    ensures records_after { records.new ≡ written (lists m) tolerance outline.now records.old }
{
    contour::contour_band(outline, tolerance, m, records)
}

pub fn contour_station_band(outline: &[i32], tolerance: i32, m: u32, records: &mut [i32]) -> Answer
    ensures value { result ≡ band_answer_of (banded (station m) tolerance outline.now
        (length records.old)) }
    ensures records_after { records.new ≡ written (station m) tolerance outline.now
        records.old }
{
    contour::contour_station_band(outline, tolerance, m, records)
}

pub fn contour_spline_band(points: &[i32], tolerance: i32, m: u32, records: &mut [i32]) -> Answer
    ensures value { result ≡ band_answer_of (banded_spline m tolerance points.now
        (length records.old)) }
    ensures records_after { records.new ≡ written_spline m tolerance points.now records.old }
{
    contour::contour_spline_band(points, tolerance, m, records)
}

pub fn contour_binary64_band(outline: &[f64], tolerance: i32, m: u32, records: &mut [i32]) -> Answer
    ensures value { result ≡ band_answer_of (banded_binary64 m tolerance outline.now
        (length records.old)) }
    ensures records_after { records.new ≡ written_binary64 m tolerance outline.now records.old }
{
    contour::contour_binary64_band(outline, tolerance, m, records)
}

pub fn contour_foretell(
    outline: &[i32],
    tolerance: i32,
    m: u32,
    depths: &mut [i32],
) -> ForetoldAnswer
    ensures value { result ≡ foretold_answer_of (foretold (lists m) tolerance outline.now
        (length depths.old)) }
    ensures depths_after { depths.new ≡ depths_written (lists m) tolerance outline.now
        depths.old }
{
    contour::contour_foretell(outline, tolerance, m, depths)
}

pub fn contour_tightest(outline: &[i32], m: u32, leaves: usize) -> TightestAnswer
    ensures { result ≡ tightest_answer_of (tightest (lists m) outline.now leaves) }
{
    contour::contour_tightest(outline, m, leaves)
}

pub fn contour_exchange(
    outline: &[i32],
    tolerance: i32,
    m: u32,
    number: usize,
    curve: &[i32; 13],
    given: usize,
    records: &mut [i32],
) -> Answer
    ensures value { result ≡ band_answer_of (exchanged (lists m) tolerance outline.now number curve.now
        given records.old) }
    ensures records_after { records.new ≡ exchanged_list (lists m) tolerance outline.now number
        curve.now given records.old }
{
    contour::contour_exchange(outline, tolerance, m, number, curve, given, records)
}

pub fn contour_judge(leaves: &[i32], m: u32, x: i32, y: i32) -> JudgingAnswer
    ensures { JudgedInNumbers (lists m) leaves.now x y result }
{
    contour::contour_judge(leaves, m, x, y)
}

pub fn contour_band_and_judge(
    outline: &[i32],
    tolerance: i32,
    m: u32,
    records: &mut [i32],
    x: i32,
    y: i32,
) -> OutcomeAnswer
    ensures records_after { records.new ≡ written_for (lists m) tolerance outline.now x y
        records.old }
    ensures answered_in_numbers { AnsweredInNumbers (lists m) tolerance outline.now x y records.old result }
{
    contour::contour_band_and_judge(outline, tolerance, m, records, x, y)
}

pub fn contour_judge_points(
    leaves: &[i32],
    m: u32,
    points: &[i32],
    answers: &mut [i64],
) -> PointsAnswer
    ensures value { result ≡ points_answer_of (points_judged (lists m) leaves.now points.now
        (length answers.old)) }
    ensures answers_after { answers.new ≡ judged_into (lists m) leaves.now points.now
        answers.old }
{
    contour::contour_judge_points(leaves, m, points, answers)
}

pub fn contour_quote(leaves: &[i32], m: u32) -> QuoteAnswer
    ensures { result ≡ quote_answer_of (quoted (lists m) leaves.now) }
{
    contour::contour_quote(leaves, m)
}

pub fn contour_draw(first: Box, second: Box, vertices: &mut [i32]) -> Drawing
    ensures value { result ≡ drawing_of (drawn first second (length vertices.old)) }
    ensures vertices_after { vertices.new ≡ drawn_into first second vertices.old }
{
    contour::contour_draw(first, second, vertices)
}

pub fn contour_box_units(b: Box) -> BoxUnits
    ensures { UnitsInNumbers b result }
{
    contour::contour_box_units(b)
}

pub fn contour_box_short(b: Box) -> BoxShort
    ensures { ShortInNumbers b result }
{
    contour::contour_box_short(b)
}

pub fn contour_version() -> u32
    ensures { result ≡ version }
{
    contour::contour_version()
}

pub fn band_and_judge(
    outline: &[i32],
    tolerance: i32,
    m: u32,
    records: &mut [i32],
    x: i32,
    y: i32,
) -> Result<Outcome, Refusal>
    ensures records_after { records.new ≡ written_for (lists m) tolerance outline.now x y
        records.old }
    ensures answered { Answered (lists m) tolerance outline.now x y records.old result }
{
    engine::band_and_judge(outline, tolerance, m, records, x, y)
}

pub fn answer(text: &[u8], out: &mut [u8; 243100]) -> usize
    ensures { PutWithin out.old 0 243100 (answer_of text.now) out.new result }
{
    answer::answer(text, out)
}
