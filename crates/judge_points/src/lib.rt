// Judging a list of points: the leaf list is checked once, and boxes round runs of its records turn most of them away.
#![tactic(auto)]

ghost use Rattle.std.specs.Prelude.{◌≡◌, length};
ghost use Rattle.setting.specs.Setting.{lists};
ghost use Rattle.judge_points.specs.Points.{points_judged, judged_into};

use crate::answers::put_all;
use judge::check_list;
use refusals::Refusal;

pub mod answers;

// Judges points, x and y of each in sixteenths, against a list of leaf records of m pieces. Three numbers for each
// point stand at the front of the list of answers afterwards: 1, record and cover, as judging names them, where it is
// on; 0, 0, 0 where it is off; 11, spot, 0 where it is refused. What stood behind them stays. Returned is how many
// points there are. Where a list is refused nothing is altered. Defined for every three lists and every m.
pub fn judge_points(
    leaves: &[i32],
    m: u32,
    points: &[i32],
    answers: &mut [i64],
) -> Result<usize, Refusal>
    ensures value { result ≡ points_judged (lists m) leaves.now points.now
        (length answers.old) }
    ensures answers_after { answers.new ≡ judged_into (lists m) leaves.now points.now
        answers.old }
{
    check_list(leaves, m)?;
    if points.len() % 2 != 0 {
        return Err(Refusal::OddPoints(points.len()));
    }
    let count = points.len() / 2;
    if answers.len() / 3 < count {
        return Err(Refusal::TooFewRecords(count));
    }
    put_all(leaves, m as usize, points, answers);
    Ok(count)
}
