// A caller of the bench station who reads the lent list. What it accepts stands there as a caller of lists gets it.
ghost use Rattle.std.specs.Prelude.{◌≡◌, ℕ, length};
ghost use Rattle.setting.specs.Setting.{lists, station};
ghost use Rattle.band_banded.specs.Banding.{done, banded, written};

use contour::c_answers::Answer;

pub fn station_list(outline: &[i32], tolerance: i32, m: u32, records: &mut [i32]) -> Answer
    ensures { (a b c : ℕ) → banded (station m) tolerance outline.now (length records.old)
        ≡ done a b c → records.new ≡ written (lists m) tolerance outline.now
        records.old }
{
    contour::contour_station_band(outline, tolerance, m, records)
}
