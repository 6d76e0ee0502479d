// The order of the lines of a text after its first: checks 14 and 15. A line reader goes from line to line.
ghost use Rattle.std.specs.Prelude.{◌≡◌, false, ◌-◌, length};
ghost use Rattle.text_lines.specs.{Lines.{lines_from}, Meaning.{fault_from}, Inside.{lines_check_of, after_line}};

use refusals::Refusal;
use text_forms::forms::Form;

// Checks 14 and 15 of the lines from place `at` on, the first of which is line 2: nothing, or the first fault.
pub fn check_rest(text: &[u8], at: usize) -> Result<(), Refusal>
    ensures { result ≡ lines_check_of (fault_from false 2
        (lines_from (length text.now - at) text.now at)) }
{
    let mut reader = text_reader::new(text, at);
    let mut late = false;
    let mut line = 2;
    while reader.read < text.len() {
        let form = text_reader::next(reader);
        reader = text_reader::after(reader, form);
        late = check_line(form, late, line)?;
        line += 1;
    }
    Ok(())
}

// Checks 14 and 15 of one line, where `late` says whether a point came before it: whether the line after it is late.
fn check_line(form: Option<Form>, late: bool, line: usize) -> Result<bool, Refusal>
    ensures { result ≡ after_line late line form }
{
    match form {
        None => Err(Refusal::NotAForm(line)),
        Some(Form::Tolerance(_, _)) => Err(Refusal::OutOfOrder(line)),
        Some(Form::Curve(_, _)) => {
            if late {
                return Err(Refusal::OutOfOrder(line));
            }
            Ok(false)
        }
        Some(Form::Point(_, _, _)) => Ok(true),
    }
}
