// What each operation promises, as the contract of a caller. The first `ensures` says what is returned, the second what
// stands in the lent list afterwards. `lists m` and `station m` are the setting: limits, and m pieces a leaf.
ghost use Rattle.std.specs.Prelude.{◌≡◌, length};
ghost use Rattle.setting.specs.Setting.{lists, station};
ghost use Rattle.boxes_binary64.specs.Boxes.{HandedOut, Shortened};
ghost use Rattle.band_banded.specs.Banding.{banded, written, banded_spline, written_spline, banded_binary64};
ghost use Rattle.band_banded.specs.Banding.{written_binary64};
ghost use Rattle.band_foretold.specs.Foretelling.{foretold, depths_written};
ghost use Rattle.band_tightest.specs.Tightest.{tightest};
ghost use Rattle.judge.specs.Judging.{Judged};
ghost use Rattle.judge_points.specs.Points.{points_judged, judged_into};
ghost use Rattle.quote_price.specs.Quote.{quoted};
ghost use Rattle.draw.specs.Drawing.{drawn, drawn_into};
ghost use Rattle.band_exchanged.specs.Exchange.{exchanged, exchanged_list};

use band_banded::banding::Banded;
use band_foretold::foretelling::Foretold;
use boxes::Box;
use boxes_binary64::{Short, StageBox};
use judge::judging::Holder;
use refusals::Refusal;

pub fn band(outline: &[i32], tolerance: i32, m: u32, records: &mut [i32]) -> Result<Banded, Refusal>
    ensures value { result ≡ banded (lists m) tolerance outline.now (length records.old) }
    ensures records_after { records.new ≡ written (lists m) tolerance outline.now records.old }
{
    band::band(outline, tolerance, m, records)
}

pub fn station_band(
    outline: &[i32],
    tolerance: i32,
    m: u32,
    records: &mut [i32],
) -> Result<Banded, Refusal>
    ensures value { result ≡ banded (station m) tolerance outline.now (length records.old) }
    ensures records_after { records.new ≡ written (station m) tolerance outline.now
        records.old }
{
    band::station_band(outline, tolerance, m, records)
}

pub fn spline_band(
    points: &[i32],
    tolerance: i32,
    m: u32,
    records: &mut [i32],
) -> Result<Banded, Refusal>
    ensures value { result ≡ banded_spline m tolerance points.now (length records.old) }
    ensures records_after { records.new ≡ written_spline m tolerance points.now records.old }
{
    band::spline_band(points, tolerance, m, records)
}

pub fn binary64_band(
    outline: &[f64],
    tolerance: i32,
    m: u32,
    records: &mut [i32],
) -> Result<Banded, Refusal>
    ensures value { result ≡ banded_binary64 m tolerance outline.now (length records.old) }
    ensures records_after { records.new ≡ written_binary64 m tolerance outline.now records.old }
{
    band::binary64_band(outline, tolerance, m, records)
}

pub fn foretell(
    outline: &[i32],
    tolerance: i32,
    m: u32,
    depths: &mut [i32],
) -> Result<Foretold, Refusal>
    ensures value { result ≡ foretold (lists m) tolerance outline.now (length depths.old) }
    ensures depths_after { depths.new ≡ depths_written (lists m) tolerance outline.now
        depths.old }
{
    band_foretell::foretell(outline, tolerance, m, depths)
}

pub fn tightest_band(outline: &[i32], m: u32, leaves: usize) -> Result<Option<u32>, Refusal>
    ensures { result ≡ tightest (lists m) outline.now leaves }
{
    band_tighten::tightest_band(outline, m, leaves)
}

pub fn exchange(
    outline: &[i32],
    tolerance: i32,
    m: u32,
    number: usize,
    curve: [i32; 13],
    given: usize,
    records: &mut [i32],
) -> Result<Banded, Refusal>
    ensures value { result ≡ exchanged (lists m) tolerance outline.now number curve given
        records.old }
    ensures records_after { records.new ≡ exchanged_list (lists m) tolerance outline.now number curve given
        records.old }
{
    band_exchange::exchange(outline, tolerance, m, number, curve, given, records)
}

pub fn judge(leaves: &[i32], m: u32, x: i32, y: i32) -> Result<Option<Holder>, Refusal>
    ensures { Judged (lists m) leaves.now x y result }
{
    judge::judge(leaves, m, x, y)
}

pub fn judge_points(
    leaves: &[i32],
    m: u32,
    points: &[i32],
    answers: &mut [i64],
) -> Result<usize, Refusal>
    ensures value { result ≡ points_judged (lists m) leaves.now points.now
        (length answers.old) }
    ensures answers_after { answers.new ≡ judged_into (lists m) leaves.now points.now
        answers.old }
{
    judge_points::judge_points(leaves, m, points, answers)
}

pub fn quote(leaves: &[i32], m: u32) -> Result<u64, Refusal>
    ensures { result ≡ quoted (lists m) leaves.now }
{
    quote::quote(leaves, m)
}

pub fn draw(first: Box, second: Box, vertices: &mut [i32]) -> Result<usize, Refusal>
    ensures value { result ≡ drawn first second (length vertices.old) }
    ensures vertices_after { vertices.new ≡ drawn_into first second vertices.old }
{
    draw::draw(first, second, vertices)
}

pub fn hand_out(b: Box) -> Result<StageBox, Refusal>
    ensures { HandedOut b result }
{
    boxes_binary64::hand_out(b)
}

pub fn shorten(b: Box) -> Result<Short, Refusal>
    ensures { Shortened b result }
{
    boxes_binary64::shorten(b)
}
