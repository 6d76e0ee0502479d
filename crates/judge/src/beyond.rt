// A point apart from a record, beyond all its boxes on one side: a few comparisons turn the record away.
ghost use Rattle.std.specs.Prelude.{◌≡◌, ◌+◌, ◌*◌, ◌%◌, ◌≤◌, length};
ghost use Rattle.setting.specs.Setting.{lists, HasRows, record_length};
ghost use Rattle.judge.specs.Inside.{below_all, above_all, beyond, record_apart, EndsAt, NextNear};

// Whether z is below the m + 1 numbers that stand four apart from index `at` on.
fn below_all(leaves: &[i32], m: usize, at: usize, z: i32) -> bool
    requires { at + (4 * m + 1) ≤ length leaves.now }
    ensures { result ≡ below_all (lists m) z leaves.now at }
{
    for i in 0..m + 1 {
        let low = leaves[at + 4 * i];
        if low <= z {
            return false;
        }
    }
    true
}

// Whether z is above the m + 1 numbers that stand four apart from index `at` on. One function for both would be no
// plainer: it would take the comparison as a closure, with a contract of its own.
fn above_all(leaves: &[i32], m: usize, at: usize, z: i32) -> bool
    requires { at + (4 * m + 1) ≤ length leaves.now }
    ensures { result ≡ above_all (lists m) z leaves.now at }
{
    for i in 0..m + 1 {
        let high = leaves[at + 4 * i];
        if z <= high {
            return false;
        }
    }
    true
}

// Whether z is below every low of the boxes of a record of m pieces, the first of which stands at index `at`, or above
// every high.
fn beyond(leaves: &[i32], m: usize, at: usize, z: i32) -> bool
    requires { at + (4 * m + 2) ≤ length leaves.now }
    ensures { result ≡ beyond (lists m) z leaves.now at }
{
    below_all(leaves, m, at, z) || above_all(leaves, m, at + 1, z)
}

// Whether the point (x, y) is apart from the record of m pieces that begins at index `at`: beyond all its boxes on one
// side.
fn record_apart(leaves: &[i32], m: usize, at: usize, x: i32, y: i32) -> bool
    requires { at + record_length (lists m) ≤ length leaves.now }
    ensures { result ≡ record_apart (lists m) x y leaves.now at }
{
    beyond(leaves, m, at + 2, x) || beyond(leaves, m, at + 4, y)
}

// The index of the first record of m pieces, from index `from` to before index `to`, that the point (x, y) is not apart
// from.
fn near_from(leaves: &[i32], m: usize, from: usize, to: usize, x: i32, y: i32) -> Option<usize>
    requires { (HasRows m) × (EndsAt (lists m) leaves.now to) × (from % record_length (lists m) ≡ 0) }
    ensures { NextNear (lists m) x y leaves.now from to result }
{
    let record_length = 6 + 4 * m;
    // A `for` by `step_by` was tried: it takes 4 instructions more a record, of some 12.
    let mut at = from;
    while at < to {
        if !record_apart(leaves, m, at, x, y) {
            return Some(at);
        }
        at += record_length;
    }
    None
}

// The index of the first record of m pieces, from index `from` to before index `to`, that the point (x, y) is not apart
// from. Each m has a call of its own, so that the compiler knows how many boxes there are in a record.
pub fn next_near(leaves: &[i32], m: usize, from: usize, to: usize, x: i32, y: i32) -> Option<usize>
    requires { (HasRows m) × (EndsAt (lists m) leaves.now to) × (from % record_length (lists m) ≡ 0) }
    ensures { NextNear (lists m) x y leaves.now from to result }
{
    match m {
        1 => near_from(leaves, 1, from, to, x, y),
        2 => near_from(leaves, 2, from, to, x, y),
        3 => near_from(leaves, 3, from, to, x, y),
        4 => near_from(leaves, 4, from, to, x, y),
        5 => near_from(leaves, 5, from, to, x, y),
        6 => near_from(leaves, 6, from, to, x, y),
        7 => near_from(leaves, 7, from, to, x, y),
        _ => near_from(leaves, 8, from, to, x, y),
    }
}
