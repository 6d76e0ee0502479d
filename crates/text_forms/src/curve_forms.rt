// A curve line read from a text.
ghost use Rattle.std.specs.Prelude.{◌≡◌};
ghost use Rattle.text_forms.specs.Forms.{curve_form_at, curve_third, curve_end};

use crate::forms::{Form, Points};
use crate::pairs::{spaced_pair_at, word_at};

// A curve line, after its word.
pub fn curve_form_at(text: &[u8], i: usize) -> Option<Form>
    ensures { result ≡ curve_form_at text.now i }
{
    let (x0, y0, j) = spaced_pair_at(text, i)?;
    let (x1, y1, k) = spaced_pair_at(text, j)?;
    curve_third(
        text,
        k,
        Points {
            degree: 1,
            x0,
            y0,
            x1,
            y1,
            x2: 0,
            y2: 0,
            x3: 0,
            y3: 0,
        },
    )
}

// A curve line, after two points.
fn curve_third(text: &[u8], i: usize, p: Points) -> Option<Form>
    ensures { result ≡ curve_third text.now i p }
{
    let Some((x2, y2, j)) = spaced_pair_at(text, i) else {
        return curve_end(text, i, p);
    };
    let q = Points {
        degree: 2,
        x2,
        y2,
        ..p
    };
    let Some((x3, y3, k)) = spaced_pair_at(text, j) else {
        return curve_end(text, j, q);
    };
    curve_end(
        text,
        k,
        Points {
            degree: 3,
            x3,
            y3,
            ..q
        },
    )
}

// A curve line, after its last point.
fn curve_end(text: &[u8], i: usize, p: Points) -> Option<Form>
    ensures { result ≡ curve_end text.now i p }
{
    if word_at(b")\n", text, i) {
        Some(Form::Curve(p, i + 2))
    } else {
        None
    }
}
