// The outline that a text gives: the numbers of its curves, put into a list one after the other.
#![tactic(auto)]

ghost use Rattle.std.specs.Prelude.{[], ◌∷◌, ◌+◌, ◌≤◌, ◌<◌, length};
ghost use Rattle.write_numbers.specs.Appends.{Appended};
ghost use Rattle.text_lines.specs.{Lines.{lines_of}, Meaning.{numbers_of_curve}};
ghost use Rattle.text_outline.specs.{Outlines.{kept}, Inside.{first_numbers}};

use text_forms::forms::{Form, Points};

// Puts the outline of a text at the front of a list, as far as the checks of an outline of 64 curves look at it, and
// answers how many numbers that are. Of a text that is refused these are the curves before the first line that is no
// form.
pub fn keep_outline(text: &[u8], numbers: &mut [i32]) -> usize
    requires { 577 ≤ length numbers.old }
    ensures { Appended numbers.old 0 (kept 64 (lines_of text.now))
        numbers.new result }
{
    let mut at = 0;
    let mut i = 0;
    let mut left: usize = 64;
    while let Some(form) = text_reader::line_from(text, i) {
        match form {
            Form::Curve(p, next) => {
                if left == 0 {
                    return put(numbers, at, p.degree);
                }
                at = put_curve(numbers, at, p);
                left -= 1;
                i = next;
            }
            Form::Tolerance(_, next) | Form::Point(_, _, next) => i = next,
        }
    }
    at
}

// A curve: its degree, then x and y of its points.
fn put_curve(out: &mut [i32], at: usize, p: Points) -> usize
    requires { at + 9 ≤ length out.old }
    ensures { Appended out.old at (numbers_of_curve p) out.new result }
{
    let degree = p.degree;
    let i = put_first(out, at, p);
    if degree < 2 {
        return i;
    }
    let j = put_pair(out, i, p.x2, p.y2);
    if degree < 3 {
        return j;
    }
    put_pair(out, j, p.x3, p.y3)
}

// The degree, and x and y of the first two points.
fn put_first(out: &mut [i32], at: usize, p: Points) -> usize
    requires { at + 5 ≤ length out.old }
    ensures { Appended out.old at (first_numbers p) out.new result }
{
    let i = put(out, at, p.degree);
    let j = put_pair(out, i, p.x0, p.y0);
    put_pair(out, j, p.x1, p.y1)
}

// x and y of a point.
fn put_pair(out: &mut [i32], at: usize, x: i32, y: i32) -> usize
    requires { at + 2 ≤ length out.old }
    ensures { Appended out.old at (x ∷ y ∷ []) out.new result }
{
    let i = put(out, at, x);
    put(out, i, y)
}

// One number.
fn put(out: &mut [i32], at: usize, value: i32) -> usize
    requires { at < length out.old }
    ensures { Appended out.old at (value ∷ []) out.new result }
{
    out[at] = value;
    at + 1
}
