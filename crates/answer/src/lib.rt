// The answer to a text: its bytes in, the bytes of its answer out. `band_answers` checks and bands the text,
// `point_answers` writes the lines of its points.
#![tactic(auto)]

ghost use Rattle.std.specs.Prelude.{◌≡◌, ◌≤◌};
ghost use lib.{ListN.{length, replicate}, IntN.{pos}};
ghost use Rattle.write_numbers.specs.Appends.{PutWithin};
ghost use Rattle.text_answers.specs.Answers.{lent, answer_of};

use crate::band_answers::band_text;
use crate::point_answers::put_points;
use band_banded::banding::Banded;
use write_lines::band_lines::put_band;

pub mod band_answers;
pub mod point_answers;

// Answers a text: the lines of its band and of its points, or of its first refusal, stand at the front of the list
// afterwards, as many bytes as are returned. Defined for every text. Records are lent as document 01 says,
// 16,380 numbers.
pub fn answer(text: &[u8], out: &mut [u8; 243100]) -> usize
    ensures { PutWithin out.old 0 243100 (answer_of text.now) out.new result }
{
    let mut numbers = [0i32; 577];
    let mut records = [0i32; 16380];
    answer_in(text, &mut numbers, &mut records, out)
}

// Answers a text as `answer` does, with the lists for its outline and its records lent too.
fn answer_in(text: &[u8], numbers: &mut [i32], records: &mut [i32], out: &mut [u8]) -> usize
    requires { (577 ≤ length numbers.old) × (records.old ≡ replicate lent (pos 0)) × (243100 ≤ length out.old) }
    ensures { PutWithin out.old 0 243100 (answer_of text.now) out.new result }
{
    match band_text(text, numbers, records) {
        Err(refusal) => write_lines::render::put_refused(out, 0, refusal),
        Ok(
            Banded {
                curves,
                leaves,
                nodes,
            },
        ) => {
            let at = put_band(curves, leaves, nodes, records, out);
            put_points(text, &records[..18 * leaves], out, at)
        }
    }
}
