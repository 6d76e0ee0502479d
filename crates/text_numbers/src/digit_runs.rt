// Bytes of a text, and runs of digits.
ghost use Rattle.std.specs.Prelude.{◌≡◌, ◌≤◌, ◌*◌, ◌-◌, length, drop};
ghost use Rattle.text_numbers.specs.{Numerals.{byte}, Inside.{DigitRun}};

// The value of a run of digits, and the place after it.
#[derive(Clone, Copy)]
pub struct Run {
    pub value: u64,
    pub next: usize,
}

// The byte at a place, 0 past the end. Defined for every place.
pub fn byte_at(text: &[u8], i: usize) -> u8
    ensures { (result ≡ byte text.now i) × (result ≤ 255 * (length text.now - i)) }
{
    text.get(i).copied().unwrap_or(0)
}

// The digits from place `at` on. A value above 2^32 need not be right, and stays above.
pub fn digit_run(text: &[u8], at: usize) -> Run
    ensures { DigitRun (drop at text.now) at result.value result.next }
{
    let mut value: u64 = 0;
    for i in at..text.len() {
        let b = text[i];
        if !b.is_ascii_digit() {
            return Run { value, next: i };
        }
        if value < 4294967296 {
            value = 10 * value + u64::from(b - 48);
        }
    }
    Run {
        value,
        next: at.max(text.len()),
    }
}
