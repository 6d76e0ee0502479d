// The first record of a leaf list that has a bad number, each record looked at without a branch.
ghost use Rattle.std.specs.Prelude.{◌≡◌, ◌+◌, ◌*◌, ◌≤◌, ◌%◌, length};
ghost use Rattle.setting.specs.Setting.{lists, HasRows, record_length};
ghost use Rattle.judge_list.specs.{Checks.{number_fault}, Inside.{sides_fine, record_fine, record_start}};

use boxes::side_fine;

// Whether the first `sides` sides from index `at` on, a low and its high each, are all fine. Nothing here branches: the
// fine ones are counted, which the compiler does four at a time where `sides` is a multiple of four.
fn sides_fine(leaves: &[i32], at: usize, sides: usize) -> bool
    requires { (sides ≤ 18) × (at + 2 * sides ≤ length leaves.now) }
    ensures { result ≡ sides_fine leaves.now at sides }
{
    let mut fine: u32 = 0;
    for i in 0..sides {
        let low = leaves[at + 2 * i];
        let high = leaves[at + (2 * i + 1)];
        fine += u32::from(side_fine(low, high));
    }
    fine as usize == sides
}

// Whether every number of the record of m pieces that begins at index `at` is fine. Nothing here branches. As many
// sides as make fours are looked at together, then the two that are left where m is even.
fn record_fine(leaves: &[i32], m: usize, at: usize) -> bool
    requires { (HasRows m) × (at + record_length (lists m) ≤ length leaves.now) }
    ensures { result ≡ record_fine (lists m) leaves.now at }
{
    let curve = leaves[at];
    let node = leaves[at + 1];
    let curve_fine = (0 <= curve) & (curve < 4096);
    let node_fine = (1 <= node) & (node <= 511);
    let fours = 4 * ((m + 1) / 2);
    let most = sides_fine(leaves, at + 2, fours);
    let last = sides_fine(leaves, at + (2 + 2 * fours), 2 * m + 2 - fours);
    curve_fine & node_fine & most & last
}

// The index where the first record with a bad number begins, in a list of whole records of m pieces.
fn first_bad(leaves: &[i32], m: usize) -> Option<usize>
    requires { (HasRows m) × (length leaves.now % record_length (lists m) ≡ 0) }
    ensures { result ≡ record_start (lists m) (number_fault (lists m) leaves.now) }
{
    let record_length = 6 + 4 * m;
    // A `for` by `step_by` was tried: it takes 4 instructions more a record, of some 36.
    let mut at: usize = 0;
    while at < leaves.len() {
        if !record_fine(leaves, m, at) {
            return Some(at);
        }
        at += record_length;
    }
    None
}

// The index where the first record with a bad number begins, in a list of whole records of m pieces. Each m has a call
// of its own, so that the compiler knows how many numbers a record has.
pub fn bad_record(leaves: &[i32], m: usize) -> Option<usize>
    requires { (HasRows m) × (length leaves.now % record_length (lists m) ≡ 0) }
    ensures { result ≡ record_start (lists m) (number_fault (lists m) leaves.now) }
{
    match m {
        1 => first_bad(leaves, 1),
        2 => first_bad(leaves, 2),
        3 => first_bad(leaves, 3),
        4 => first_bad(leaves, 4),
        5 => first_bad(leaves, 5),
        6 => first_bad(leaves, 6),
        7 => first_bad(leaves, 7),
        _ => first_bad(leaves, 8),
    }
}
