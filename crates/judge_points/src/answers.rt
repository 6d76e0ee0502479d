// The three numbers that answer a point, and the answers of all points written to the caller's list.
ghost use Rattle.std.specs.Prelude.{◌≡◌, ◌+◌, ◌*◌, ◌/◌, ◌≤◌};
ghost use lib.{ListN.{length}, Seq.{sets}};
ghost use Rattle.setting.specs.Setting.{lists, HasRows};
ghost use Rattle.judge.specs.{Judging.{Passed}, Judgements.{judgement}};
ghost use Rattle.judge_runs.specs.Inside.{Boxed};
ghost use Rattle.judge_points.specs.{Points.{judgement_numbers, numbers_to}, Inside.{three_numbers}};

use judge_runs::boxing::{Cut, box_list};
use judge_runs::searching::find_groups;

// The three numbers that answer a point.
#[derive(Clone, Copy)]
pub struct Three {
    pub first: i64,
    pub second: i64,
    pub third: i64,
}

// What judging says of the point (x, y), in three numbers, of a list of records of m pieces that has passed its checks.
fn three_of(
    leaves: &[i32],
    m: usize,
    cut: Cut,
    runs: &[i32],
    groups: &[i32],
    x: i32,
    y: i32,
) -> Three
    requires { (HasRows m) × (Passed (lists m) leaves.now)
        × (Boxed (lists m) leaves.now cut runs.now groups.now) }
    ensures { three_numbers result ≡ judgement_numbers (judgement (lists m) leaves.now x y) }
{
    if !boxes::in_range(x) {
        return Three {
            first: 11,
            second: 0,
            third: 0,
        };
    }
    if !boxes::in_range(y) {
        return Three {
            first: 11,
            second: 1,
            third: 0,
        };
    }
    match find_groups(leaves, m, cut, runs, groups, x, y) {
        Some(holder) => Three {
            first: 1,
            second: holder.leaf as i64,
            third: holder.cover as i64,
        },
        None => Three {
            first: 0,
            second: 0,
            third: 0,
        },
    }
}

// Writes three numbers from index `at` on.
fn put_three(answers: &mut [i64], at: usize, three: Three)
    requires { at + 3 ≤ length answers.old }
    ensures { answers.new ≡ sets answers.old at (three_numbers three) }
{
    let first = three.first;
    let second = three.second;
    let third = three.third;
    answers[at] = first;
    answers[at + 1] = second;
    answers[at + 2] = third;
}

// Writes what judging says of each point, three numbers each, from the front of the list of answers on.
fn put_points(
    leaves: &[i32],
    m: usize,
    cut: Cut,
    runs: &[i32],
    groups: &[i32],
    points: &[i32],
    answers: &mut [i64],
)
    requires { (HasRows m) × (Passed (lists m) leaves.now)
        × (Boxed (lists m) leaves.now cut runs.now groups.now)
        × (3 * (length points.now / 2) ≤ length answers.old) }
    ensures { answers.new ≡ sets answers.old 0
        (numbers_to (lists m) leaves.now points.now (length points.now / 2)) }
{
    let total = points.len() / 2;
    for i in 0..total {
        let x = points[2 * i];
        let y = points[2 * i + 1];
        let three = three_of(leaves, m, cut, runs, groups, x, y);
        put_three(answers, 3 * i, three);
    }
}

// Writes what judging says of each point, three numbers each, from the front of the list of answers on. Boxes for the
// search are written to the other two lists.
fn put_by_boxes(
    leaves: &[i32],
    m: usize,
    points: &[i32],
    runs: &mut [i32],
    groups: &mut [i32],
    answers: &mut [i64],
)
    requires { (HasRows m) × (Passed (lists m) leaves.now) × (8192 ≤ length runs.old)
        × (128 ≤ length groups.old) × (3 * (length points.now / 2) ≤ length answers.old) }
    ensures { answers.new ≡ sets answers.old 0
        (numbers_to (lists m) leaves.now points.now (length points.now / 2)) }
{
    let cut = box_list(leaves, m, runs, groups);
    put_points(leaves, m, cut, runs, groups, points, answers);
}

// Writes what judging says of each point against a list of records of m pieces that has passed its checks: three
// numbers each, from the front of the list of answers on.
pub fn put_all(leaves: &[i32], m: usize, points: &[i32], answers: &mut [i64])
    requires { (HasRows m) × (Passed (lists m) leaves.now)
        × (3 * (length points.now / 2) ≤ length answers.old) }
    ensures { answers.new ≡ sets answers.old 0
        (numbers_to (lists m) leaves.now points.now (length points.now / 2)) }
{
    // What the lists begin with is never read.
    let mut runs = [0i32; 8192];
    let mut groups = [0i32; 128];
    put_by_boxes(leaves, m, points, &mut runs, &mut groups, answers);
}
