// G, by the number of pieces and the degree.
ghost use Rattle.std.specs.Prelude.{◌≡◌, true, ◌≤◌};
ghost use Rattle.setting.specs.Setting.{HasRows, degree_pieces};
ghost use Rattle.bound_rows.specs.Rule.{gap_of};

// Six numbers for each number of pieces from 1 to 8: G of the degrees 0 to 5, and 0 where a degree takes more pieces.
const GAPS: [u64; 48] = [
    0, 0, 2500, 7500, 0, 0, 0, 0, 625, 1944, 0, 0, 0, 0, 278, 890, 1729, 2955, 0, 0, 157, 477, 964,
    1622, 0, 0, 100, 303, 611, 1031, 0, 0, 71, 211, 425, 711, 0, 0, 52, 155, 312, 521, 0, 0, 40,
    120, 239, 399,
];

// G of a degree that takes so many pieces.
pub fn gap_of(m: usize, degree: u32) -> u64
    requires { (HasRows m) × (degree ≤ 5) × (degree_pieces degree m ≡ true) }
    ensures { result ≡ gap_of m degree }
{
    let gaps = GAPS;
    let at = 6 * (m - 1) + degree as usize;
    gaps[at]
}
