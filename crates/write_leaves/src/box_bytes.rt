// The boxes of leaf records, put into a list of bytes. Each function asks for the room that it may need, and returns
// the place after what it puts. `ns` is a list of records, k the index of a number in it.
ghost use Rattle.std.specs.Prelude.{◌+◌, ◌≤◌, ◌<◌, length};
ghost use Rattle.integers.specs.Entry.{entry};
ghost use Rattle.write_numbers.specs.{Appends.{PutWithin}, Decimals.{spaced}};
ghost use Rattle.write_leaves.specs.Boxes.{four_numbers, box_bytes, boxes_bytes};

use write_numbers::decimals::{put_number, put_spaced, put_word};

// The four boxes.
pub fn put_boxes(ns: &[i32], k: usize, out: &mut [u8], from: usize) -> usize
    requires { (k + 16 ≤ length ns.now) × (from + 200 ≤ length out.old) }
    ensures { PutWithin out.old from 200 (boxes_bytes ns.now k 4) out.new result }
{
    let mut at = from;
    for i in 0..4 {
        at = put_box(ns, k + 4 * i, out, at);
    }
    at
}

// A space and a box in parentheses.
fn put_box(ns: &[i32], k: usize, out: &mut [u8], at: usize) -> usize
    requires { (k + 4 ≤ length ns.now) × (at + 50 ≤ length out.old) }
    ensures { PutWithin out.old at 50 (box_bytes ns.now k) out.new result }
{
    let a = put_word(out, at, b" (");
    let b = put_four(ns, k, out, a);
    put_word(out, b, b")")
}

// Four numbers.
fn put_four(ns: &[i32], k: usize, out: &mut [u8], at: usize) -> usize
    requires { (k + 4 ≤ length ns.now) × (at + 47 ≤ length out.old) }
    ensures { PutWithin out.old at 47 (four_numbers ns.now k) out.new result }
{
    let first = ns[k];
    let a = put_number(out, at, first);
    let b = put_element(ns, k + 1, out, a);
    let c = put_element(ns, k + 2, out, b);
    put_element(ns, k + 3, out, c)
}

// A space and a number.
pub fn put_element(ns: &[i32], k: usize, out: &mut [u8], at: usize) -> usize
    requires { (k < length ns.now) × (at + 12 ≤ length out.old) }
    ensures { PutWithin out.old at 12 (spaced (entry ns.now k)) out.new result }
{
    let value = ns[k];
    put_spaced(out, at, value)
}
