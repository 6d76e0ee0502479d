// The checks of a text: 16, 14 and 15.
ghost use Rattle.std.specs.Prelude.{◌≡◌};
ghost use Rattle.text_lines.specs.{Lines.{lines_of}, Meaning.{meaning_of, meaning}, Inside.{text_check_of}};

use crate::line_checks::check_rest;
use refusals::Refusal;
use text_forms::forms::Form;

// Checks 16, 14 and 15 of a text: its tolerance, or the first fault. Defined for every text.
pub fn check_text(text: &[u8]) -> Result<i32, Refusal>
    ensures { result ≡ text_check_of (meaning text.now) }
{
    if 16384 < text.len() {
        return Err(Refusal::TextTooLong(16385));
    }
    check_lines(text)
}

// Checks 14 and 15 of a text.
fn check_lines(text: &[u8]) -> Result<i32, Refusal>
    ensures { result ≡ text_check_of (meaning_of (lines_of text.now)) }
{
    if text.is_empty() {
        return Err(Refusal::OutOfOrder(1));
    }
    match text_reader::line_from(text, 0) {
        Some(Form::Tolerance(tolerance, next)) => {
            check_rest(text, next)?;
            Ok(tolerance)
        }
        Some(Form::Curve(_, _) | Form::Point(_, _, _)) => Err(Refusal::OutOfOrder(1)),
        None => Err(Refusal::NotAForm(1)),
    }
}
