// The lines of the answer but for the leaves, put into a list of bytes. Each function asks for the room that it may
// need, and returns the place after the line.
ghost use Rattle.std.specs.Prelude.{◌+◌, ◌≤◌, length};
ghost use Rattle.write_numbers.specs.Appends.{Appended, PutWithin};
ghost use Rattle.write_lines.specs.Answers.{two_numbers, three_numbers, done_line, refused_line, on_line, off_line};

use refusals::Refusal;
use write_numbers::decimals::{put_spaced_natural, put_word};

// What banding reports.
pub fn put_done(out: &mut [u8], at: usize, curves: usize, leaves: usize, nodes: usize) -> usize
    requires { at + 70 ≤ length out.old }
    ensures { PutWithin out.old at 70 (done_line curves leaves nodes) out.new result }
{
    let i = put_word(out, at, b"(done");
    put_three(out, i, curves as u64, leaves as u64, nodes as u64)
}

// A refusal's number and spot.
pub fn put_refused(out: &mut [u8], at: usize, refusal: Refusal) -> usize
    requires { at + 52 ≤ length out.old }
    ensures { PutWithin out.old at 52 (refused_line refusal) out.new result }
{
    let number = u64::from(refusal.number());
    let spot = refusal.spot() as u64;
    let i = put_word(out, at, b"(refused");
    put_two(out, i, number, spot)
}

// A point that is on the band, with the record and the cover that hold it.
pub fn put_on(out: &mut [u8], at: usize, leaf: usize, cover: usize) -> usize
    requires { at + 47 ≤ length out.old }
    ensures { PutWithin out.old at 47 (on_line leaf cover) out.new result }
{
    let i = put_word(out, at, b"(on");
    put_two(out, i, leaf as u64, cover as u64)
}

// A point that is off it.
pub fn put_off(out: &mut [u8], at: usize) -> usize
    requires { at + 6 ≤ length out.old }
    ensures { Appended out.old at off_line out.new result }
{
    put_word(out, at, b"(off)\n")
}

// Three numbers and the end of the line.
fn put_three(out: &mut [u8], at: usize, a: u64, b: u64, c: u64) -> usize
    requires { at + 65 ≤ length out.old }
    ensures { PutWithin out.old at 65 (three_numbers a b c) out.new result }
{
    let i = put_spaced_natural(out, at, a);
    let j = put_spaced_natural(out, i, b);
    let k = put_spaced_natural(out, j, c);
    put_word(out, k, b")\n")
}

// Two numbers and the end of the line.
fn put_two(out: &mut [u8], at: usize, a: u64, b: u64) -> usize
    requires { at + 44 ≤ length out.old }
    ensures { PutWithin out.old at 44 (two_numbers a b) out.new result }
{
    let i = put_spaced_natural(out, at, a);
    let j = put_spaced_natural(out, i, b);
    put_word(out, j, b")\n")
}
