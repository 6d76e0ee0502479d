// One coordinate of degree 1 to 3 as its bounds at all break points need it.
ghost use Rattle.std.specs.Prelude.{◌≡◌, ◌<◌, ◌≤◌, ◌^◌};
ghost use Rattle.integers.specs.Entry.{entry};
ghost use Rattle.curve_halves.specs.Sizes.{Each};
ghost use Rattle.curve_nodes.specs.Differences.{difference};
ghost use Rattle.bound_row_table.specs.Inside.{row_place};
ghost use Rattle.bound_coordinate.specs.{Inside.{Boundable, Computed}, Terms.{chosen, terms_of}};

// 10000 times the chord's start times m and its rise, the second differences, and where each begins to read its rows.
#[derive(Clone, Copy)]
pub struct Terms {
    pub start: i64,
    pub step: i64,
    pub difference0: i64,
    pub difference1: i64,
    pub row0: usize,
    pub row1: usize,
}

// The second difference of the control values from place k on.
pub fn difference_at(c: [i64; 6], k: usize) -> i64
    requires { (Each (2 ^ 44) c) × (k < 4) }
    ensures { Computed (2 ^ 46) (difference c k) result }
{
    c[k] - 2 * c[k + 1] + c[k + 2]
}

// The last control value.
fn last_of(c: [i64; 6], degree: u32) -> i64
    requires { (1 ≤ degree) × (degree ≤ 3) }
    ensures { result ≡ entry c degree }
{
    if degree < 2 {
        return c[1];
    }
    if degree < 3 {
        return c[2];
    }
    c[3]
}

// Where the rows of a degree's first and of its second difference begin among the copied rows.
fn first_place(degree: u32) -> usize
    requires { degree ≤ 3 }
    ensures { result ≡ row_place degree 0 }
{
    if degree < 2 {
        return 81;
    }
    if degree < 3 {
        return 54;
    }
    0
}

fn second_place(degree: u32) -> usize
    requires { degree ≤ 3 }
    ensures { result ≡ row_place degree 1 }
{
    if degree < 3 { 81 } else { 27 }
}

// Where a difference begins to read rows that begin at p: a negative one, whose high is the low row's, one number
// further on.
pub fn row_for(difference: i64, p: usize) -> usize
    requires { p ≤ 270 }
    ensures { result ≡ chosen difference p }
{
    if difference < 0 { p + 1 } else { p }
}

// The terms of a coordinate for m pieces.
pub fn terms_of(c: [i64; 6], degree: u32, m: usize) -> Terms
    requires { (Boundable c degree) × (m ≤ 8) }
    ensures { result ≡ terms_of m degree c }
{
    let difference0 = difference_at(c, 0);
    let difference1 = difference_at(c, 1);
    let first = c[0];
    let last = last_of(c, degree);
    Terms {
        start: 10000 * (m as i64 * first),
        step: 10000 * (last - first),
        difference0,
        difference1,
        row0: row_for(difference0, first_place(degree)),
        row1: row_for(difference1, second_place(degree)),
    }
}
