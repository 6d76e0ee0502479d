// Boxes round the runs of a leaf list, and round groups of 64 runs.
ghost use Rattle.std.specs.Prelude.{◌≡◌, true, ◌+◌, ◌*◌, ◌%◌, ◌≤◌};
ghost use lib.{ListN.{length}, Seq.{sets}};
ghost use Rattle.setting.specs.Setting.{lists, HasRows, record_length};
ghost use Rattle.boxes.specs.Ranges.{numbers_of};
ghost use Rattle.judge_list.specs.Checks.{length_fine};
ghost use Rattle.judge.specs.Inside.{EndsAt};
ghost use Rattle.judge_runs.specs.Inside.{round_both, round_boxes, Around, RunEnd, RunLength};
ghost use Rattle.judge_runs.specs.Inside.{Runs, Groups, Boxed};

use boxes::Box;
use judge_list::leaf_faults::box_in;

// How a leaf list is cut: how many numbers a run has, and how many runs and groups of runs there are.
#[derive(Clone, Copy)]
pub struct Cut {
    pub run: usize,
    pub runs: usize,
    pub groups: usize,
}

// The box round two boxes.
fn round_both(a: Box, b: Box) -> Box
    ensures { result ≡ round_both a b }
{
    let x_low = a.x_low.min(b.x_low);
    let x_high = a.x_high.max(b.x_high);
    let y_low = a.y_low.min(b.y_low);
    let y_high = a.y_high.max(b.y_high);
    Box {
        x_low,
        x_high,
        y_low,
        y_high,
    }
}

// The box round a box and `count` boxes of a list, four numbers each from index `at` on.
fn round_boxes(list: &[i32], at: usize, count: usize, first: Box) -> Box
    requires { at + 4 * count ≤ length list.now }
    ensures { result ≡ round_boxes first list.now at count }
{
    let mut around = first;
    for i in 0..count {
        around = round_both(around, box_in(list, at + 4 * i));
    }
    around
}

// A box that adds nothing to what a box is made round: its lows are the greatest there are, its highs the least.
fn nowhere() -> Box {
    Box {
        x_low: 536870912,
        x_high: -536870912,
        y_low: 536870912,
        y_high: -536870912,
    }
}

// A box round the records of m pieces that begin from index `from` to before index `to`.
fn round_run(leaves: &[i32], m: usize, from: usize, to: usize) -> Box
    requires { (HasRows m) × (EndsAt (lists m) leaves.now to) × (from % record_length (lists m) ≡ 0) }
    ensures { Around (lists m) leaves.now from to result }
{
    let record_length = 6 + 4 * m;
    let mut around = nowhere();
    for at in (from..to).step_by(record_length) {
        around = round_boxes(leaves, at + 2, m + 1, around);
    }
    around
}

// Writes the four numbers of a box from index `at` on.
fn put_box(list: &mut [i32], at: usize, b: Box)
    requires { at + 4 ≤ length list.old }
    ensures { list.new ≡ sets list.old at (numbers_of b) }
{
    let x_low = b.x_low;
    let x_high = b.x_high;
    let y_low = b.y_low;
    let y_high = b.y_high;
    list[at] = x_low;
    list[at + 1] = x_high;
    list[at + 2] = y_low;
    list[at + 3] = y_high;
}

// Where a run that begins at index `from` ends, in a list of so many numbers.
pub fn run_end(numbers: usize, from: usize, run: usize) -> usize
    requires { from ≤ numbers }
    ensures { RunEnd numbers from run result }
{
    from + run.min(numbers - from)
}

// How many numbers a run has: whole records of m pieces, so many that a list of so many numbers has at most 2,048 runs.
fn run_length(numbers: usize, m: usize) -> usize
    requires { (HasRows m) × (length_fine (lists m) numbers ≡ true) }
    ensures { RunLength (lists m) numbers result }
{
    let record_length = 6 + 4 * m;
    let records = numbers / record_length;
    record_length * ((records - 1) / 2048 + 1)
}

// Writes a box for each run of `run` numbers of a list of records of m pieces, and returns how many there are.
fn box_runs(leaves: &[i32], m: usize, run: usize, boxes: &mut [i32]) -> usize
    requires { (HasRows m) × (RunLength (lists m) (length leaves.now) run) × (8192 ≤ length boxes.old) }
    ensures { Runs (lists m) leaves.now run result boxes.new }
{
    let mut count: usize = 0;
    let mut at: usize = 0;
    // A `for` is no plainer: where a run ends the next begins, and the runs are counted.
    while at < leaves.len() {
        let to = run_end(leaves.len(), at, run);
        put_box(boxes, 4 * count, round_run(leaves, m, at, to));
        count += 1;
        at = to;
    }
    count
}

// Writes a box for each group of 64 of the `count` runs, and returns how many there are.
fn box_groups(runs: &[i32], count: usize, groups: &mut [i32]) -> usize
    requires { (count ≤ 2048) × (4 * count ≤ length runs.now) × (128 ≤ length groups.old) }
    ensures { Groups runs.now count result groups.new }
{
    let mut number: usize = 0;
    let mut first: usize = 0;
    // A `for` is no plainer: where a group ends the next begins, and the groups are counted.
    while first < count {
        let next = run_end(count, first, 64);
        let around = round_boxes(runs, 4 * first, next - first, nowhere());
        put_box(groups, 4 * number, around);
        number += 1;
        first = next;
    }
    number
}

// Cuts a list of records of m pieces, and writes a box for each run and for each group of runs.
pub fn box_list(leaves: &[i32], m: usize, runs: &mut [i32], groups: &mut [i32]) -> Cut
    requires { (HasRows m) × (length_fine (lists m) (length leaves.now) ≡ true) × (8192 ≤ length runs.old)
        × (128 ≤ length groups.old) }
    ensures { Boxed (lists m) leaves.now result runs.new groups.new }
{
    let run = run_length(leaves.len(), m);
    let count = box_runs(leaves, m, run, runs);
    let number = box_groups(runs, count, groups);
    Cut {
        run,
        runs: count,
        groups: number,
    }
}
