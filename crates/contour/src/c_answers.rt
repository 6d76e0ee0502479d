// Answers in numbers, as the C interface gives them: 0 and 0 and what was found, or a refusal's number and spot. Each
// type of answer is a struct of its own, as that interface has it. The conversions are functions: an `impl` of `From`
// each, with the same match in it, is no plainer.
ghost use Rattle.std.specs.Prelude.{◌≡◌};
ghost use Rattle.contour.specs.{Numbers.{band_answer_of, judging_answer_of}, Foretellings.{foretold_answer_of}};
ghost use Rattle.contour.specs.{Tightest.{tightest_answer_of}, Points.{points_answer_of}, Quotes.{quote_answer_of}};
ghost use Rattle.contour.specs.{Drawings.{drawing_of}, BoxForms.{units_of, form_of, short_of}};
ghost use Rattle.contour.specs.Answers.{outcome_answer_of};

use band_banded::banding::Banded;
use band_foretold::foretelling::Foretold;
use boxes_binary64::{Short, StageBox};
use engine::Outcome;
use judge::judging::Holder;
use refusals::Refusal;

// What banding answers, in numbers: a refusal's number and spot, or 0 and 0 and the report.
#[repr(C)]
#[derive(Clone, Copy)]
pub struct Answer {
    pub refusal: u32,
    pub spot: u64,
    pub curves: u64,
    pub leaves: u64,
    pub nodes: u64,
}

// The numbers of an answer.
pub fn in_numbers(banded: Result<Banded, Refusal>) -> Answer
    ensures { result ≡ band_answer_of banded }
{
    match banded {
        Ok(report) => Answer {
            refusal: 0,
            spot: 0,
            curves: report.curves as u64,
            leaves: report.leaves as u64,
            nodes: report.nodes as u64,
        },
        Err(refusal) => Answer {
            refusal: refusal.number(),
            spot: refusal.spot() as u64,
            curves: 0,
            leaves: 0,
            nodes: 0,
        },
    }
}

// What foretelling answers, in numbers: a refusal's number and spot, or 0 and 0 and the most leaves and nodes, 0 and 0
// where a curve has no depth.
#[repr(C)]
#[derive(Clone, Copy)]
pub struct ForetoldAnswer {
    pub refusal: u32,
    pub spot: u64,
    pub leaves: u64,
    pub nodes: u64,
}

// The numbers of what is foretold.
pub fn foretold_in_numbers(foretold: Result<Foretold, Refusal>) -> ForetoldAnswer
    ensures { result ≡ foretold_answer_of foretold }
{
    match foretold {
        Ok(most) => ForetoldAnswer {
            refusal: 0,
            spot: 0,
            leaves: most.leaves as u64,
            nodes: most.nodes as u64,
        },
        Err(refusal) => ForetoldAnswer {
            refusal: refusal.number(),
            spot: refusal.spot() as u64,
            leaves: 0,
            nodes: 0,
        },
    }
}

// The answer for the tightest band, in numbers: a refusal's number and spot, or 0 and 0 and the least tolerance that
// fits, 0 where none does.
#[repr(C)]
#[derive(Clone, Copy)]
pub struct TightestAnswer {
    pub refusal: u32,
    pub spot: u64,
    pub tolerance: u32,
}

// The numbers of the answer for the tightest band.
pub fn tightest_in_numbers(tightest: Result<Option<u32>, Refusal>) -> TightestAnswer
    ensures { result ≡ tightest_answer_of tightest }
{
    match tightest {
        Ok(Some(tolerance)) => TightestAnswer {
            refusal: 0,
            spot: 0,
            tolerance,
        },
        Ok(None) => TightestAnswer {
            refusal: 0,
            spot: 0,
            tolerance: 0,
        },
        Err(refusal) => TightestAnswer {
            refusal: refusal.number(),
            spot: refusal.spot() as u64,
            tolerance: 0,
        },
    }
}

// What judging answers, in numbers: a refusal's number and spot, or 0 and 0 and whether the point is on, with the
// record and the cover that hold it.
#[repr(C)]
#[derive(Clone, Copy)]
pub struct JudgingAnswer {
    pub refusal: u32,
    pub spot: u64,
    pub on: u32,
    pub leaf: u64,
    pub cover: u64,
}

// The numbers of a judgement.
pub fn judgement_in_numbers(judgement: Result<Option<Holder>, Refusal>) -> JudgingAnswer
    ensures { result ≡ judging_answer_of judgement }
{
    match judgement {
        Ok(Some(holder)) => JudgingAnswer {
            refusal: 0,
            spot: 0,
            on: 1,
            leaf: holder.leaf as u64,
            cover: holder.cover as u64,
        },
        Ok(None) => JudgingAnswer {
            refusal: 0,
            spot: 0,
            on: 0,
            leaf: 0,
            cover: 0,
        },
        Err(refusal) => JudgingAnswer {
            refusal: refusal.number(),
            spot: refusal.spot() as u64,
            on: 0,
            leaf: 0,
            cover: 0,
        },
    }
}

// What banding and judging together answer, in numbers: a refusal's number and spot, or 0 and 0, banding's report and
// the judgement.
#[repr(C)]
#[derive(Clone, Copy)]
pub struct OutcomeAnswer {
    pub refusal: u32,
    pub spot: u64,
    pub curves: u64,
    pub leaves: u64,
    pub nodes: u64,
    pub on: u32,
    pub leaf: u64,
    pub cover: u64,
}

// The numbers of an outcome.
pub fn outcome_in_numbers(outcome: Result<Outcome, Refusal>) -> OutcomeAnswer
    ensures { result ≡ outcome_answer_of outcome }
{
    match outcome {
        Ok(outcome) => {
            let report = outcome.banded;
            let judged = judgement_in_numbers(Ok(outcome.holder));
            OutcomeAnswer {
                refusal: judged.refusal,
                spot: judged.spot,
                curves: report.curves as u64,
                leaves: report.leaves as u64,
                nodes: report.nodes as u64,
                on: judged.on,
                leaf: judged.leaf,
                cover: judged.cover,
            }
        }
        Err(refusal) => OutcomeAnswer {
            refusal: refusal.number(),
            spot: refusal.spot() as u64,
            curves: 0,
            leaves: 0,
            nodes: 0,
            on: 0,
            leaf: 0,
            cover: 0,
        },
    }
}

// What drawing answers, in numbers: a refusal's number and spot, or 0 and 0 and the count of vertices.
#[repr(C)]
#[derive(Clone, Copy)]
pub struct Drawing {
    pub refusal: u32,
    pub spot: u64,
    pub vertices: u64,
}

// The numbers of a drawing's answer.
pub fn drawing_in_numbers(drawn: Result<usize, Refusal>) -> Drawing
    ensures { result ≡ drawing_of drawn }
{
    match drawn {
        Ok(count) => Drawing {
            refusal: 0,
            spot: 0,
            vertices: count as u64,
        },
        Err(refusal) => Drawing {
            refusal: refusal.number(),
            spot: refusal.spot() as u64,
            vertices: 0,
        },
    }
}

// What judging a list of points answers, in numbers: a refusal's number and spot, or 0 and 0 and the count of points.
#[repr(C)]
#[derive(Clone, Copy)]
pub struct PointsAnswer {
    pub refusal: u32,
    pub spot: u64,
    pub points: u64,
}

// The numbers of an answer for a list of points.
pub fn points_in_numbers(answered: Result<usize, Refusal>) -> PointsAnswer
    ensures { result ≡ points_answer_of answered }
{
    match answered {
        Ok(count) => PointsAnswer {
            refusal: 0,
            spot: 0,
            points: count as u64,
        },
        Err(refusal) => PointsAnswer {
            refusal: refusal.number(),
            spot: refusal.spot() as u64,
            points: 0,
        },
    }
}

// What a quote answers, in numbers: a refusal's number and spot, or 0 and 0 and the total in cents.
#[repr(C)]
#[derive(Clone, Copy)]
pub struct QuoteAnswer {
    pub refusal: u32,
    pub spot: u64,
    pub cents: u64,
}

// The numbers of a quote.
pub fn quote_in_numbers(quoted: Result<u64, Refusal>) -> QuoteAnswer
    ensures { result ≡ quote_answer_of quoted }
{
    match quoted {
        Ok(cents) => QuoteAnswer {
            refusal: 0,
            spot: 0,
            cents,
        },
        Err(refusal) => QuoteAnswer {
            refusal: refusal.number(),
            spot: refusal.spot() as u64,
            cents: 0,
        },
    }
}

// A box handed out, in numbers: a refusal's number and spot and zeros, or 0 and 0 and the box in stage units.
#[repr(C)]
#[derive(Clone, Copy)]
pub struct BoxUnits {
    pub refusal: u32,
    pub spot: u64,
    pub x_low: f64,
    pub x_high: f64,
    pub y_low: f64,
    pub y_high: f64,
}

// The numbers of a box handed out.
pub fn units_in_numbers(handed: Result<StageBox, Refusal>) -> BoxUnits
    ensures { result ≡ units_of handed }
{
    match handed {
        Ok(units) => BoxUnits {
            refusal: 0,
            spot: 0,
            x_low: units.x_low,
            x_high: units.x_high,
            y_low: units.y_low,
            y_high: units.y_high,
        },
        Err(refusal) => BoxUnits {
            refusal: refusal.number(),
            spot: refusal.spot() as u64,
            x_low: 0.0,
            x_high: 0.0,
            y_low: 0.0,
            y_high: 0.0,
        },
    }
}

// The short form of a box, in numbers: a refusal's number and spot, kind 0 and zeros, or 0 and 0 and the form, which is
// of kind 1, a point, whose half width and half height are 0, or of kind 2, a middle.
#[repr(C)]
#[derive(Clone, Copy)]
pub struct BoxShort {
    pub refusal: u32,
    pub spot: u64,
    pub kind: u32,
    pub x: f64,
    pub y: f64,
    pub half_width: f64,
    pub half_height: f64,
}

// The numbers of a short form.
fn form_in_numbers(short: Short) -> BoxShort
    ensures { result ≡ form_of short }
{
    match short {
        Short::Point(x, y) => BoxShort {
            refusal: 0,
            spot: 0,
            kind: 1,
            x,
            y,
            half_width: 0.0,
            half_height: 0.0,
        },
        Short::Middle {
            x,
            y,
            half_width,
            half_height,
        } => BoxShort {
            refusal: 0,
            spot: 0,
            kind: 2,
            x,
            y,
            half_width,
            half_height,
        },
    }
}

// The numbers of what the short form is answered with.
pub fn short_in_numbers(shortened: Result<Short, Refusal>) -> BoxShort
    ensures { result ≡ short_of shortened }
{
    match shortened {
        Ok(short) => form_in_numbers(short),
        Err(refusal) => BoxShort {
            refusal: refusal.number(),
            spot: refusal.spot() as u64,
            kind: 0,
            x: 0.0,
            y: 0.0,
            half_width: 0.0,
            half_height: 0.0,
        },
    }
}
