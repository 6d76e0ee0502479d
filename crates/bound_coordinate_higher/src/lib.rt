// One coordinate of degree 4 or 5: what its bounds at all break points need, and its low and high at a break point. It
// stands apart from degrees 1 to 3, for speed (docs/landings/19).
#![tactic(auto)]

ghost use Rattle.std.specs.Prelude.{◌≡◌, ◌<◌, ◌≤◌, ◌*◌, ◌^◌, length};
ghost use Rattle.integers.specs.Entry.{entry};
ghost use Rattle.curve_halves.specs.Sizes.{Each};
ghost use Rattle.bound_row_table.specs.Inside.{row_place};
ghost use Rattle.bound_coordinate.specs.{Inside.{HigherBoundable, Small, Computed}, Terms.{pair_of}};
ghost use Rattle.bound_coordinate.specs.HigherTerms.{higher_of, HigherComputable, HigherComputableAt, higher_numerator};
ghost use Rattle.bound_coordinate.specs.HigherTerms.{Raised, RoundedDown, higher_low, higher_high};

use bound_coordinate::higher::HigherTerms;
use bound_coordinate::terms::{difference_at, row_for};

// 2^28: no bound is larger in size.
const LARGEST: i64 = 1 << 28;

// The last control value.
fn last_of(c: [i64; 6], degree: u32) -> i64
    requires { (4 ≤ degree) × (degree ≤ 5) }
    ensures { result ≡ entry c degree }
{
    if degree < 5 { c[4] } else { c[5] }
}

// Where the rows of a degree begin among the copied rows.
fn place_of(degree: u32) -> usize
    requires { (4 ≤ degree) × (degree ≤ 5) }
    ensures { (result ≡ row_place degree 0) × (result ≤ 189) }
{
    if degree < 5 { 108 } else { 189 }
}

// The terms of a coordinate for m pieces, over 2^shift.
pub fn higher_of(c: [i64; 6], degree: u32, shift: u32, m: usize) -> HigherTerms
    requires { (HigherBoundable c degree) × (m ≤ 8) × (shift ≤ 20) }
    ensures { result ≡ higher_of m degree shift c }
{
    let difference0 = difference_at(c, 0);
    let difference1 = difference_at(c, 1);
    let difference2 = difference_at(c, 2);
    let difference3 = difference_at(c, 3);
    let first = c[0];
    let place = place_of(degree);
    let last = last_of(c, degree);
    HigherTerms {
        degree,
        start: 10000 * (m as i64 * first) + ((LARGEST * (625 * m as i64)) << shift),
        step: 10000 * (last - first),
        difference0,
        difference1,
        difference2,
        difference3,
        row0: row_for(difference0, place),
        row1: row_for(difference1, place + 27),
        row2: row_for(difference2, place + 54),
        row3: row_for(difference3, place + 81),
    }
}

// The sum of row × difference for two differences, whose rows are read from places p and q.
fn pair(rows: &[i64], p: usize, q: usize, x: i64, y: i64) -> i64
    requires { (Each 72000 rows.now) × (p < length rows.now) × (q < length rows.now) × (Small (2 ^ 42) x)
        × (Small (2 ^ 42) y) }
    ensures { Computed (144000 * 2 ^ 42) (pair_of rows.now p q x y) result }
{
    rows[p] * x + rows[q] * y
}

// The number that is divided at break point i, for rows read `at` places on.
fn numerator(rows: &[i64], t: HigherTerms, at: usize, i: usize) -> i64
    requires { (HigherComputableAt i rows.now t) × (at < 26) }
    ensures { result ≡ higher_numerator rows.now t at i }
{
    let start = t.start;
    let step = t.step;
    let chord = start + i as i64 * step;
    let a = pair(rows, t.row0 + at, t.row1 + at, t.difference0, t.difference1);
    let b = rows[t.row2 + at] * t.difference2;
    if t.degree < 5 {
        return chord + (a + b);
    }
    chord + (a + b + rows[t.row3 + at] * t.difference3)
}

// n over 625 m 2^shift, rounded down, where n is raised by 2^28 times that; the scale is 5040 over m.
fn rounded_down(n: i64, shift: u32, scale: usize) -> i64
    requires { Raised shift scale n }
    ensures { RoundedDown shift scale n result }
{
    ((n as u64 >> shift) * (scale as u64) / 3150000) as i64 - LARGEST
}

// The low at break point i, over 2^shift; the scale is 5040 over m.
pub fn low_at(rows: &[i64], t: HigherTerms, shift: u32, scale: usize, m: usize, i: usize) -> i64
    requires { (HigherComputable m shift scale rows.now t) × (i ≤ m) }
    ensures { Computed (2 ^ 28) (higher_low m shift rows.now t i) result }
{
    let n = numerator(rows, t, 3 * i + 1, i);
    rounded_down(n, shift, scale)
}

// The high at break point i: one less than the divisor is added before it is rounded down.
pub fn high_at(rows: &[i64], t: HigherTerms, shift: u32, scale: usize, m: usize, i: usize) -> i64
    requires { (HigherComputable m shift scale rows.now t) × (i ≤ m) }
    ensures { Computed (2 ^ 28) (higher_high m shift rows.now t i) result }
{
    let n = numerator(rows, t, 3 * i, i);
    let more = ((625 * m as i64) << shift) - 1;
    rounded_down(n + more, shift, scale)
}
