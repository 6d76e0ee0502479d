// Words and decimal numbers put into a list of bytes, one after the other. Each function asks for the room that it may
// need, and returns the place after what it has put: memory is fixed, so what is printed goes into a lent list.
ghost use Rattle.std.specs.Prelude.{◌≡◌, ◌+◌, ◌≤◌};
ghost use lib.{ListN.{length}, IntN.{nat_abs}};
ghost use Rattle.write_numbers.specs.{Appends.{Appended, PutWithin}, Decimals.{decimal, spaced, spaced_natural}};

use crate::digits::{put_byte, put_digits};

// A space and a number.
pub fn put_spaced(out: &mut [u8], at: usize, value: i32) -> usize
    requires { at + 12 ≤ length out.old }
    ensures { PutWithin out.old at 12 (spaced value) out.new result }
{
    let i = put_byte(out, at, b' ');
    put_number(out, i, value)
}

// A number, with a minus before it where it is below zero.
pub fn put_number(out: &mut [u8], at: usize, value: i32) -> usize
    requires { at + 11 ≤ length out.old }
    ensures { PutWithin out.old at 11 (decimal value) out.new result }
{
    let n = magnitude(value);
    if value < 0 {
        let i = put_byte(out, at, b'-');
        put_digits(out, i, n, 10)
    } else {
        put_digits(out, at, n, 10)
    }
}

// A space and a natural.
pub fn put_spaced_natural(out: &mut [u8], at: usize, n: u64) -> usize
    requires { at + 21 ≤ length out.old }
    ensures { PutWithin out.old at 21 (spaced_natural n) out.new result }
{
    let i = put_byte(out, at, b' ');
    put_digits(out, i, n, 20)
}

// The bytes of a word.
pub fn put_word(out: &mut [u8], at: usize, word: &[u8]) -> usize
    requires { at + length word.now ≤ length out.old }
    ensures { Appended out.old at word.now out.new result }
{
    let end = at + word.len();
    out[at..end].copy_from_slice(word);
    end
}

// The absolute value.
fn magnitude(value: i32) -> u64
    ensures { result ≡ nat_abs value }
{
    u64::from(value.unsigned_abs())
}
