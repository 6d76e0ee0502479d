// The line reader: the text that it was lent, and how far it has read. The functions over it are thin, since each is
// proved by a walk of its code; the reading itself is `text_forms::form_reading::form_at`. Other crates call
// `line_from`, whose parameters are plain.
#![tactic(auto)]

ghost use Rattle.std.specs.Prelude.{◌≡◌};
ghost use Rattle.text_forms.specs.Forms.{form_at};
ghost use Rattle.text_reader.specs.Reading.{place_after};

use text_forms::forms::Form;

// It is no iterator of lines: a line that is no form is not the end of a text, so an item would be an `Option` within
// an `Option`, and those who read a text want the place after a line as well, which is no plainer.
#[derive(Clone, Copy)]
pub struct LineReader<'a> {
    pub text: &'a [u8],
    pub read: usize,
}

// A reader of a text of which `read` bytes are read.
pub fn new<'a>(text: &'a [u8], read: usize) -> LineReader<'a>
    ensures { (result.text ≡ text.entry) × (result.read ≡ read) }
{
    LineReader { text, read }
}

// The line after what was read, with the place after it.
pub fn next<'a>(reader: LineReader<'a>) -> Option<Form>
    ensures { result ≡ form_at reader.entry.text.now reader.entry.read }
{
    text_forms::form_reading::form_at(reader.text, reader.read)
}

// The reader after a line that it read, of the same text.
pub fn after<'a>(reader: LineReader<'a>, line: Option<Form>) -> LineReader<'a>
    ensures { (result.text ≡ reader.entry.text) × (result.read ≡ place_after line reader.entry.read) }
{
    LineReader {
        text: reader.text,
        read: place_after(line, reader.read),
    }
}

// The line that starts at a place, read by a reader. Defined for every text and place.
pub fn line_from(text: &[u8], at: usize) -> Option<Form>
    ensures { result ≡ form_at text.now at }
{
    next(new(text, at))
}

// Where reading goes on after a line that started at a place.
fn place_after(line: Option<Form>, at: usize) -> usize
    ensures { result ≡ place_after line at }
{
    match line {
        Some(Form::Tolerance(_, next) | Form::Curve(_, next) | Form::Point(_, _, next)) => next,
        None => at,
    }
}
