// The lines of the points of a text, judged in turn.
ghost use Rattle.std.specs.Prelude.{◌+◌, ◌*◌, ◌≤◌, length};
ghost use Rattle.setting.specs.Setting.{standard};
ghost use Rattle.judge.specs.Judging.{Passed};
ghost use Rattle.write_numbers.specs.Appends.{PutWithin};
ghost use Rattle.text_lines.specs.Lines.{lines_of, gather};
ghost use Rattle.text_answers.specs.{Points.{point_answer}, Inside.{LeavesFine, line_answer}};

use text_forms::forms::Form;

// The line of one point. The leaves passed their checks when they were written.
fn put_point(leaves: &[i32], x: i32, y: i32, out: &mut [u8], at: usize) -> usize
    requires { (at + 52 ≤ length out.old) × (Passed standard leaves.now) }
    ensures { PutWithin out.old at 52 (point_answer leaves.now x y) out.new result }
{
    match judge::judge_point(leaves, 3, x, y) {
        Ok(Some(holder)) => write_lines::render::put_on(out, at, holder.leaf, holder.cover),
        Ok(None) => write_lines::render::put_off(out, at),
        Err(refusal) => write_lines::render::put_refused(out, at, refusal),
    }
}

// The lines of all points, from place `from` on.
pub fn put_points(text: &[u8], leaves: &[i32], out: &mut [u8], from: usize) -> usize
    requires { (from + 2 * length text.now + 52 ≤ length out.old) × (LeavesFine leaves.now) }
    ensures { PutWithin out.old from (2 * length text.now)
        (gather (line_answer leaves.now) (lines_of text.now)) out.new result }
{
    let mut at = from;
    let mut i = 0;
    while let Some(form) = text_reader::line_from(text, i) {
        match form {
            Form::Tolerance(_, next) | Form::Curve(_, next) => i = next,
            Form::Point(x, y, next) => {
                at = put_point(leaves, x, y, out, at);
                i = next;
            }
        }
    }
    at
}
