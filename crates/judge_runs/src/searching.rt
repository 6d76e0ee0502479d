// The first record and cover of a leaf list that hold a point, looked for in the runs whose box does not turn it away.
ghost use Rattle.std.specs.Prelude.{◌≡◌, ◌+◌, ◌*◌, ◌≤◌, ◌<◌, ◌^◌, length};
ghost use Rattle.setting.specs.Setting.{lists, HasRows};
ghost use Rattle.boxes.specs.Records.{box_at_index};
ghost use Rattle.judge.specs.{Judging.{Passed}, Inside.{InRange, Searched, FoundTo}};
ghost use Rattle.judge_runs.specs.Inside.{outside, NextBox, RunsTo, Boxed};

use crate::boxing::{Cut, run_end};
use judge::holder::find_to;
use judge::judging::Holder;

// Whether the point (x, y) lies outside the box whose four numbers begin at index `at`.
fn is_outside(list: &[i32], at: usize, x: i32, y: i32) -> bool
    requires { at + 4 ≤ length list.now }
    ensures { result ≡ outside (box_at_index list.now at) x y }
{
    let x_low = list[at];
    let x_high = list[at + 1];
    if x < x_low || x_high < x {
        return true;
    }
    let y_low = list[at + 2];
    let y_high = list[at + 3];
    y < y_low || y_high < y
}

// The first of boxes `from` to before `to` that the point (x, y) does not lie outside.
fn next_box(boxes: &[i32], from: usize, to: usize, x: i32, y: i32) -> Option<usize>
    requires { (4 * to ≤ length boxes.now) × (from ≤ to) }
    ensures { NextBox boxes.now x y from to result }
{
    for k in from..to {
        if !is_outside(boxes, 4 * k, x, y) {
            return Some(k);
        }
    }
    None
}

// The index where run k begins. A call of its own: inlined, the product is carried along in the loop that looks for the
// next box, and a box passed over takes six to eight instructions beside its tests, and not four.
#[inline(never)]
fn run_start(run: usize, k: usize) -> usize
    requires { run * k < 2 ^ 64 }
    ensures { result ≡ run * k }
{
    run * k
}

// The first record of m pieces and its first cover that hold the point (x, y), looked for in runs `from` to before
// `to`: no record before run `from` holds it.
fn find_runs(
    leaves: &[i32],
    m: usize,
    run: usize,
    boxes: &[i32],
    from: usize,
    to: usize,
    x: i32,
    y: i32,
) -> Option<Holder>
    requires { (HasRows m) × (Passed (lists m) leaves.now) × (InRange x y)
        × (RunsTo (lists m) leaves.now run boxes.now from to)
        × (Searched (lists m) leaves.now x y (run * from)) }
    ensures { FoundTo (lists m) leaves.now x y (run * to) result }
{
    // The next box is looked for in two places: in one, a box passed over takes twice the instructions.
    let mut next = next_box(boxes, from, to, x, y);
    while let Some(k) = next {
        let at = run_start(run, k);
        let holder = find_to(leaves, m, at, run_end(leaves.len(), at, run), x, y);
        if holder.is_some() {
            return holder;
        }
        next = next_box(boxes, k + 1, to, x, y);
    }
    None
}

// The first record of m pieces and its first cover that hold the point (x, y), looked for in the groups of runs whose
// box does not turn it away.
pub fn find_groups(
    leaves: &[i32],
    m: usize,
    cut: Cut,
    runs: &[i32],
    groups: &[i32],
    x: i32,
    y: i32,
) -> Option<Holder>
    requires { (HasRows m) × (Passed (lists m) leaves.now) × (InRange x y)
        × (Boxed (lists m) leaves.now cut runs.now groups.now) }
    ensures { FoundTo (lists m) leaves.now x y (length leaves.now) result }
{
    let run = cut.run;
    let count = cut.runs;
    let number = cut.groups;
    // In two places, as in `find_runs`.
    let mut next = next_box(groups, 0, number, x, y);
    while let Some(c) = next {
        let from = 64 * c;
        let to = run_end(count, from, 64);
        let holder = find_runs(leaves, m, run, runs, from, to, x, y);
        if holder.is_some() {
            return holder;
        }
        next = next_box(groups, c + 1, number, x, y);
    }
    None
}
