// Check 10 of a leaf list: its first bad number.
ghost use Rattle.std.specs.Prelude.{◌≡◌, ◌+◌, ◌≤◌, ◌%◌, length};
ghost use Rattle.setting.specs.Setting.{lists, HasRows, record_length};
ghost use Rattle.boxes.specs.{Ranges.{place_of}, Records.{box_at_index}};
ghost use Rattle.judge_list.specs.{Checks.{number_fault}, Inside.{in_boxes, boxes_fault_at, record_fault_at}};

use crate::leaf_list::bad_record;
use boxes::Box;

// The box whose four numbers begin at index `at`.
pub fn box_in(leaves: &[i32], at: usize) -> Box
    requires { at + 4 ≤ length leaves.now }
    ensures { result ≡ box_at_index leaves.now at }
{
    let x_low = leaves[at];
    let x_high = leaves[at + 1];
    let y_low = leaves[at + 2];
    let y_high = leaves[at + 3];
    Box {
        x_low,
        x_high,
        y_low,
        y_high,
    }
}

// The place of the first bad number of the m + 1 boxes from index `at` on.
fn boxes_fault(leaves: &[i32], m: usize, at: usize) -> Option<usize>
    requires { at + in_boxes (lists m) ≤ length leaves.now }
    ensures { result ≡ place_of (boxes_fault_at leaves.now at (in_boxes (lists m))) }
{
    for i in 0..m + 1 {
        if let Some(place) = box_in(leaves, at + 4 * i).fault() {
            return Some(4 * i + place);
        }
    }
    None
}

// The place of the first bad number of the record of m pieces that begins at index `at`.
fn record_fault(leaves: &[i32], m: usize, at: usize) -> Option<usize>
    requires { at + record_length (lists m) ≤ length leaves.now }
    ensures { result ≡ place_of (record_fault_at (lists m) leaves.now at) }
{
    let curve = leaves[at];
    if !(0..4096).contains(&curve) {
        return Some(0);
    }
    let node = leaves[at + 1];
    if !(1..=511).contains(&node) {
        return Some(1);
    }
    let place = boxes_fault(leaves, m, at + 2)?;
    Some(2 + place)
}

// The index of the first bad number of a list of whole records of m pieces. Numbers are looked at one by one only in
// the first record that has a bad one.
pub fn number_fault(leaves: &[i32], m: usize) -> Option<usize>
    requires { (HasRows m) × (length leaves.now % record_length (lists m) ≡ 0) }
    ensures { result ≡ place_of (number_fault (lists m) leaves.now) }
{
    let at = bad_record(leaves, m)?;
    let place = record_fault(leaves, m, at)?;
    Some(at + place)
}
