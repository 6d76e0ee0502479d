// What the test of a node takes from the number of pieces alone.
#![tactic(auto)]

ghost use Rattle.std.specs.Prelude.{◌≡◌, true, cond, ◌≤◌, ◌<◌, ◌-◌, ◌+◌, ◌*◌};
ghost use Rattle.setting.specs.Setting.{HasRows, degree_pieces};
ghost use Rattle.bound_row_table.specs.Inside.{row_place, Copied};
ghost use Rattle.bound_pieces.specs.Inside.{times, gap_at, gaps_of, pieces_by, pieces_of};

// The number of pieces; whether control values are sixths; the divisor, m times the scale of control values, and 5040
// over it; the largest gap of degree 2, the corner of degree 3, and by how much its second gap is less at the break
// point that has its first, each times 6 over the scale of control values; and the gaps of degrees 4 and 5.
#[derive(Clone, Copy)]
pub struct Pieces {
    pub m: usize,
    pub sixths: bool,
    pub divisor: usize,
    pub scale: usize,
    pub single: u64,
    pub near: u64,
    pub far: u64,
    pub less: u64,
    pub quartic: Gaps,
    pub quintic: Gaps,
}

// The gaps of degree 4 or 5: G; the largest sum of the first and the last at a break point; and the first and the
// second at break point 0.
#[derive(Clone, Copy)]
pub struct Gaps {
    pub whole: u64,
    pub outer: u64,
    pub first: u64,
    pub second: u64,
}

// Where the rows of second difference k of a degree begin among the copied rows.
fn start_of(degree: u32, k: usize) -> usize
    requires { (k < degree - 1) × (degree ≤ 5) }
    ensures { (result ≡ row_place degree k) × (result ≤ 270) }
{
    if degree < 3 {
        return 54;
    }
    if degree < 4 {
        return 27 * k;
    }
    if degree < 5 {
        108 + 27 * k
    } else {
        189 + 27 * k
    }
}

// The gap of the rows of second difference k of a degree at break point i; the copied rows are m times the rows.
fn gap_at(rows: &[i64], m: usize, degree: u32, k: usize, i: usize) -> u64
    requires { (HasRows m) × (Copied m rows.now) × (k < degree - 1) × (degree ≤ 5) × (i ≤ m)
        × (degree_pieces degree m ≡ true) }
    ensures { (result ≡ gap_at m degree k i) × (result ≤ 18000) }
{
    let start = start_of(degree, k);
    let high = rows[start + 3 * i];
    let low = rows[start + 3 * i + 1];
    (high - low) as u64 / (m as u64)
}

// The gaps of degree 4 or 5, which stand at the break points 0 and 1; 0 for fewer pieces than they take.
fn gaps_of(rows: &[i64], m: usize, degree: u32) -> Gaps
    requires { (HasRows m) × (Copied m rows.now) × (4 ≤ degree) × (degree ≤ 5) }
    ensures { result ≡ gaps_of m degree }
{
    if m < 3 {
        return Gaps {
            whole: 0,
            outer: 0,
            first: 0,
            second: 0,
        };
    }
    let three = gap_at(rows, m, degree, 0, 1)
        + gap_at(rows, m, degree, 1, 1)
        + gap_at(rows, m, degree, 2, 1);
    let first = gap_at(rows, m, degree, 0, 0);
    let second = gap_at(rows, m, degree, 1, 0);
    if degree < 5 {
        return Gaps {
            whole: three,
            outer: first,
            first,
            second,
        };
    }
    Gaps {
        whole: three + gap_at(rows, m, degree, 3, 1),
        outer: first + gap_at(rows, m, degree, 3, 0),
        first,
        second,
    }
}

// How many of what control values count make a stage unit.
fn unit_of(sixths: bool) -> usize
    ensures { (result ≡ cond sixths 6 1) × (1 ≤ result) × (result ≤ 6) }
{
    if sixths { 6 } else { 1 }
}

// 6 over that.
fn times_of(sixths: bool) -> u64
    ensures { (result ≡ times sixths) × (result ≤ 6) }
{
    if sixths { 1 } else { 6 }
}

// The whole, from the gaps at the break point where the first is the largest, the largest sum, and those of degrees 4
// and 5.
fn pieces_by(
    m: usize,
    sixths: bool,
    single: u64,
    near: u64,
    other: u64,
    both: u64,
    quartic: Gaps,
    quintic: Gaps,
) -> Pieces
    requires { (1 ≤ m) × (m ≤ 8) × (near + other ≤ both) × (single ≤ 18000) × (both ≤ 36000) }
    ensures { result ≡ pieces_by m sixths single near other both quartic quintic }
{
    let far = both - near;
    let times = times_of(sixths);
    let divisor = m * unit_of(sixths);
    Pieces {
        m,
        sixths,
        divisor,
        scale: 5040 / divisor,
        single: times * single,
        near: times * near,
        far: times * far,
        less: times * (far - other),
        quartic,
        quintic,
    }
}

// What goes with m pieces and control values that are sixths or not, from the rows. G and the largest gaps stand at the
// break points 0 and 1.
pub fn pieces_of(rows: &[i64], m: usize, sixths: bool) -> Pieces
    requires { (HasRows m) × (Copied m rows.now) }
    ensures { result ≡ pieces_of m sixths }
{
    let a0 = gap_at(rows, m, 3, 0, 0);
    let a1 = gap_at(rows, m, 3, 0, 1);
    let b0 = gap_at(rows, m, 3, 1, 0);
    let b1 = gap_at(rows, m, 3, 1, 1);
    let single = gap_at(rows, m, 2, 0, 1);
    let quartic = gaps_of(rows, m, 4);
    let quintic = gaps_of(rows, m, 5);
    let both = (a0 + b0).max(a1 + b1);
    if a0 < a1 {
        pieces_by(m, sixths, single, a1, b1, both, quartic, quintic)
    } else {
        pieces_by(m, sixths, single, a0, b0, both, quartic, quintic)
    }
}
