// Words, numbers and pairs of numbers at a place of a text.
ghost use Rattle.std.specs.Prelude.{◌≡◌, ◌<◌};
ghost use Rattle.text_forms.specs.Pairs.{word_at, number_then, pair_at, spaced_pair_at};

use text_numbers::digit_runs::byte_at;
use text_numbers::number_reading::number_at;

// A space and a pair: its two numbers, and the place after it.
pub fn spaced_pair_at(text: &[u8], i: usize) -> Option<(i32, i32, usize)>
    ensures { result ≡ spaced_pair_at text.now i }
{
    if byte_at(text, i) != b' ' {
        return None;
    }
    pair_at(text, i + 1)
}

// Two numbers in parentheses, a space between them, and the place after them.
fn pair_at(text: &[u8], i: usize) -> Option<(i32, i32, usize)>
    ensures { result ≡ pair_at text.now i }
{
    if byte_at(text, i) != b'(' {
        return None;
    }
    let (x, j) = number_then(text, i + 1, b' ')?;
    let (y, k) = number_then(text, j, b')')?;
    Some((x, y, k))
}

// A number and the byte b after it; the place after both.
fn number_then(text: &[u8], i: usize, b: u8) -> Option<(i32, usize)>
    requires { 0 < b }
    ensures { result ≡ number_then b text.now i }
{
    let (value, j) = number_at(text, i)?;
    if byte_at(text, j) != b {
        return None;
    }
    Some((value, j + 1))
}

// Whether the bytes from place `at` on start with a word.
pub fn word_at(word: &[u8], text: &[u8], at: usize) -> bool
    ensures { result ≡ word_at word.now text.now at }
{
    text[at.min(text.len())..].starts_with(word)
}
