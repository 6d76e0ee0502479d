// The form of a line read from a text.
ghost use Rattle.std.specs.Prelude.{◌≡◌};
ghost use Rattle.text_forms.specs.Forms.{tolerance_form_at, point_form_at, form_at};

use crate::curve_forms::curve_form_at;
use crate::forms::Form;
use crate::pairs::{spaced_pair_at, word_at};
use text_numbers::number_reading::number_at;

// The form of the line that starts at a place, where it has one. Defined for every text and place.
pub fn form_at(text: &[u8], i: usize) -> Option<Form>
    ensures { result ≡ form_at text.now i }
{
    if word_at(b"(tolerance ", text, i) {
        return tolerance_form_at(text, i + 11);
    }
    if word_at(b"(curve", text, i) {
        return curve_form_at(text, i + 6);
    }
    if word_at(b"(point", text, i) {
        return point_form_at(text, i + 6);
    }
    None
}

// A tolerance line, after its word.
fn tolerance_form_at(text: &[u8], i: usize) -> Option<Form>
    ensures { result ≡ tolerance_form_at text.now i }
{
    let (tolerance, j) = number_at(text, i)?;
    if word_at(b")\n", text, j) {
        Some(Form::Tolerance(tolerance, j + 2))
    } else {
        None
    }
}

// A point line, after its word.
fn point_form_at(text: &[u8], i: usize) -> Option<Form>
    ensures { result ≡ point_form_at text.now i }
{
    let (x, y, j) = spaced_pair_at(text, i)?;
    if word_at(b")\n", text, j) {
        Some(Form::Point(x, y, j + 2))
    } else {
        None
    }
}
