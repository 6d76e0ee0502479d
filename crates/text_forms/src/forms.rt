// The forms of a line: a tolerance, a curve, a point. The code stands in `curve_forms` and `form_reading`.

// A line that has a form: its numbers and the place after it, which is where the next line starts.
#[derive(Clone, Copy)]
pub enum Form {
    Tolerance(i32, usize),
    Curve(Points, usize),
    Point(i32, i32, usize),
}

// The points of a curve, degree + 1 of them; the rest is 0.
#[derive(Clone, Copy)]
pub struct Points {
    pub degree: i32,
    pub x0: i32,
    pub y0: i32,
    pub x1: i32,
    pub y1: i32,
    pub x2: i32,
    pub y2: i32,
    pub x3: i32,
    pub y3: i32,
}
