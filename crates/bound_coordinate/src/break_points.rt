// The low and the high of one coordinate of degree 1 to 3 at a break point, from its terms and the copied rows, in 64
// bits.
ghost use Rattle.std.specs.Prelude.{◌≡◌, ◌<◌, ◌≤◌, ◌*◌, ◌^◌, nat_abs};
ghost use Rattle.integers.specs.Rounding.{floor};
ghost use Rattle.bound_coordinate.specs.Inside.{Computed};
ghost use Rattle.bound_coordinate.specs.Terms.{ComputableAt, NumeratorAt, numerator_of, denominator_of, low_by};
ghost use Rattle.bound_coordinate.specs.Terms.{high_by};

use crate::terms::Terms;

// A multiple of 3150000 that no dividend passes in size, and 2^28, which no bound passes in size.
const RAISE: i64 = 3150000 << 28;

const LARGEST: i64 = 1 << 28;

// The number that is divided at break point i, for rows read from places p and q.
fn numerator(rows: &[i64], t: Terms, p: usize, q: usize, i: usize) -> i64
    requires { (NumeratorAt i rows.now t) × (p < 108) × (q < 108) }
    ensures { result ≡ numerator_of rows.now t p q i }
{
    let start = t.start;
    let step = t.step;
    let difference0 = t.difference0;
    let difference1 = t.difference1;
    let chord = start + i as i64 * step;
    chord + (rows[p] * difference0 + rows[q] * difference1)
}

// n over 625 · divisor · 2^shift, rounded down. The divisor is m times the scale of the control values, and 5040 is a
// multiple of every one: to divide by 625 times it is to multiply by 5040 over it and to divide by 3150000, a constant.
// Raised by a multiple of 3150000 the dividend is not negative, and the machine's quotient is rounded down.
pub fn rounded_down(n: i64, shift: u32, scale: usize, divisor: usize) -> i64
    requires { (nat_abs n ≤ 625 * 2 ^ 28 * (divisor * 2 ^ shift)) × (shift ≤ 24) × (scale * divisor ≡ 5040)
        × (divisor ≤ 48) }
    ensures { Computed (2 ^ 28) (floor n (denominator_of divisor shift)) result }
{
    let raised = RAISE + (n >> shift) * (scale as i64);
    (raised as u64 / 3150000) as i64 - LARGEST
}

// The low at break point i, over 2^shift; the scale is 5040 over the divisor.
pub fn low_at(rows: &[i64], t: Terms, shift: u32, scale: usize, divisor: usize, i: usize) -> i64
    requires { ComputableAt divisor shift scale i rows.now t }
    ensures { Computed (2 ^ 28) (low_by divisor shift rows.now t i) result }
{
    let p = t.row0 + (3 * i + 1);
    let q = t.row1 + (3 * i + 1);
    let n = numerator(rows, t, p, q, i);
    rounded_down(n, shift, scale, divisor)
}

// The high at break point i: one less than the divisor is added before it is rounded down.
pub fn high_at(rows: &[i64], t: Terms, shift: u32, scale: usize, divisor: usize, i: usize) -> i64
    requires { ComputableAt divisor shift scale i rows.now t }
    ensures { Computed (2 ^ 28) (high_by divisor shift rows.now t i) result }
{
    let p = t.row0 + 3 * i;
    let q = t.row1 + 3 * i;
    let n = numerator(rows, t, p, q, i);
    let more = ((625 * divisor as i64) << shift) - 1;
    rounded_down(n + more, shift, scale, divisor)
}
