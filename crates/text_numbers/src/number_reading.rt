// Decimal numbers read from a text. A numeral of any length is read without overflow.
ghost use Rattle.std.specs.Prelude.{◌≡◌, ◌≤◌, pos, neg_ℤ};
ghost use Rattle.text_numbers.specs.Numerals.{natural_at, number_at};

use crate::digit_runs::{byte_at, digit_run};

// The number that stands at a place, and the place after it: digits without leading zeros, a minus before them or not,
// within 32 bits signed. Defined for every text and place.
pub fn number_at(text: &[u8], i: usize) -> Option<(i32, usize)>
    ensures { result ≡ number_at text.now i }
{
    let b = byte_at(text, i);
    if b == b'0' {
        return Some((0, i + 1));
    }
    if b == b'-' {
        let (value, next) = natural_at(text, i + 1)?;
        return Some((negative(value), next));
    }
    let (value, next) = natural_at(text, i)?;
    if value <= 2147483647 {
        Some((positive(value), next))
    } else {
        None
    }
}

// Digits that start with 1 to 9, of a value up to 2147483648, and the place after them.
fn natural_at(text: &[u8], i: usize) -> Option<(u64, usize)>
    ensures { result ≡ natural_at text.now i }
{
    let first = byte_at(text, i);
    if !(b'1'..=b'9').contains(&first) {
        return None;
    }
    let run = digit_run(text, i);
    let value = run.value;
    if value <= 2147483648 {
        Some((value, run.next))
    } else {
        None
    }
}

// The value as a number of 32 bits signed.
fn positive(value: u64) -> i32
    requires { value ≤ 2147483647 }
    ensures { result ≡ pos value }
{
    value as i32
}

// The value below zero, as a number of 32 bits signed.
fn negative(value: u64) -> i32
    requires { value ≤ 2147483648 }
    ensures { result ≡ neg_ℤ (pos value) }
{
    -(value as i64) as i32
}
