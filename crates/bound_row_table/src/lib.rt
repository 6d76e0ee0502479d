// The enclosure rows as the code has them: the constant table, and the rows of m pieces copied out of it into a list,
// m times as large and three numbers a break point. What the rows are, their rule, and the polynomials that they bound
// stand in `bound_rows`.
#![tactic(auto)]

ghost use Rattle.std.specs.Prelude.{◌≡◌, ◌+◌, ◌*◌, ◌≤◌};
ghost use lib.{ListN.{length}, IntN.{pos}};
ghost use Rattle.setting.specs.Setting.{HasRows};
ghost use Rattle.curve_halves.specs.Sizes.{Each};
ghost use Rattle.bound_rows.specs.Table.{table, row_from};
ghost use Rattle.bound_row_table.specs.Inside.{copied_number, Put, PutRows, Copied};

pub mod table;

use crate::table::table;

// m times the rows of one second difference, from place `at` on: three numbers a break point, the high, the low, and
// the high again. The high row begins at place `from` of the table, and the low row follows it.
fn put_row(rows: &mut [i64], at: usize, entries: &[i16], from: usize, m: usize)
    requires { (entries.now ≡ table) × (from + 2 * (m + 1) ≤ length entries.now) × (m ≤ 8)
        × (at + 3 * (m + 1) ≤ length rows.old) }
    ensures { Put at (3 * (m + 1)) (copied_number m (row_from m from)) rows.old rows.new }
{
    let times = m as i64;
    for i in 0..m + 1 {
        let high = times * entries[from + i] as i64;
        let low = times * entries[from + (m + 1) + i] as i64;
        rows[at + 3 * i] = high;
        rows[at + 3 * i + 1] = low;
        rows[at + 3 * i + 2] = high;
    }
}

// m times the rows of n second differences, 27 places each, from place `at` on.
pub fn put_degree(rows: &mut [i64], at: usize, entries: &[i16], from: usize, n: usize, m: usize)
    requires { (entries.now ≡ table) × (from + n * (2 * (m + 1)) ≤ length entries.now) × (m ≤ 8)
        × (at + 27 * n ≤ length rows.old) }
    ensures { PutRows at n m from rows.old rows.new }
{
    for k in 0..n {
        put_row(rows, at + 27 * k, entries, from + k * (2 * (m + 1)), m);
    }
}

// Zeros, for the second differences that a degree does not have.
pub fn put_zeros(rows: &mut [i64], at: usize)
    requires { at + 27 ≤ length rows.old }
    ensures { Put at 27 (λ p. pos 0) rows.old rows.new }
{
    for i in 0..27 {
        rows[at + i] = 0;
    }
}

// The rows of m pieces, 27 places for each second difference: two of degree 3, one of degree 2, zeros, and where there
// are rows of m pieces for them, three of degree 4 and four of degree 5.
#[inline(always)]
pub fn put_rows(rows: &mut [i64], m: usize)
    requires { (HasRows m) × (length rows.old ≡ 297) × (Each (5000 * m) rows.old) }
    ensures { Copied m rows.new }
{
    let table = table();
    let fewer = (m - 1) * (m + 2);
    put_degree(rows, 0, &table, 88 + 2 * fewer, 2, m);
    put_degree(rows, 54, &table, fewer, 1, m);
    put_zeros(rows, 81);
    if 3 <= m {
        put_degree(rows, 108, &table, 264 + 3 * (fewer - 10), 3, m);
        put_degree(rows, 189, &table, 498 + 4 * (fewer - 10), 4, m);
    }
}
