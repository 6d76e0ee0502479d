// The lines of leaf records, put into a list of bytes. Each function asks for the room that it may need, and returns
// the place after what it puts. `ns` is a list of records, k the index of a number in it.
ghost use Rattle.std.specs.Prelude.{◌+◌, ◌*◌, ◌≤◌, length};
ghost use Rattle.write_numbers.specs.Appends.{PutWithin};
ghost use Rattle.write_leaves.specs.Leaves.{leaf_head, leaf_line, leaf_lines};

use crate::box_bytes::{put_boxes, put_element};
use write_numbers::decimals::put_word;

// The lines of the first n records of a leaf list.
pub fn put_leaves(records: &[i32], n: usize, out: &mut [u8], from: usize) -> usize
    requires { (18 * n ≤ length records.now) × (from + 231 * n ≤ length out.old) }
    ensures { PutWithin out.old from (231 * n) (leaf_lines records.now n)
        out.new result }
{
    let mut at = from;
    for k in 0..n {
        at = put_leaf(records, 18 * k, out, at);
    }
    at
}

// The record whose curve stands at index k.
fn put_leaf(ns: &[i32], k: usize, out: &mut [u8], at: usize) -> usize
    requires { (k + 18 ≤ length ns.now) × (at + 231 ≤ length out.old) }
    ensures { PutWithin out.old at 231 (leaf_line ns.now k) out.new result }
{
    let a = put_head(ns, k, out, at);
    let b = put_boxes(ns, k + 2, out, a);
    put_word(out, b, b")\n")
}

// The word, the curve and the node.
fn put_head(ns: &[i32], k: usize, out: &mut [u8], at: usize) -> usize
    requires { (k + 2 ≤ length ns.now) × (at + 29 ≤ length out.old) }
    ensures { PutWithin out.old at 29 (leaf_head ns.now k) out.new result }
{
    let a = put_word(out, at, b"(leaf");
    let b = put_element(ns, k, out, a);
    put_element(ns, k + 1, out, b)
}
