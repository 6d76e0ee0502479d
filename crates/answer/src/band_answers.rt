// The band of a text: checking and banding it.
ghost use Rattle.std.specs.Prelude.{◌≡◌, ◌≤◌, length};
ghost use Rattle.text_lines.specs.Meaning.{meaning};
ghost use Rattle.text_answers.specs.Bands.{band_of, records_after};

use band_banded::banding::Banded;
use refusals::Refusal;

// Checks a text and bands its outline at its tolerance: the first fault of the text, or what banding answers. The
// leaves' records stand at the front of the list afterwards, and what stood behind them stays; a refusal alters nothing
// there.
pub fn band_text(text: &[u8], numbers: &mut [i32], records: &mut [i32]) -> Result<Banded, Refusal>
    requires { 577 ≤ length numbers.old }
    ensures { (result ≡ band_of (meaning text.now) (length records.old))
        × (records.new ≡ records_after (meaning text.now) records.old) }
{
    let tolerance = text_lines::text_checks::check_text(text)?;
    let n = text_outline::keep_outline(text, numbers);
    band::band_most(&numbers[..n], 64, 16384, tolerance, 3, records)
}
