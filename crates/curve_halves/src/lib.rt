// One coordinate of a curve of degree 1 to 5, halved.
#![tactic(auto)]

ghost use Rattle.std.specs.Prelude.{◌≡◌, ◌^◌, ◌≤◌};
ghost use Rattle.setting.specs.Setting.{most_degree};
ghost use Rattle.curve_halves.specs.{Halves.{left, right, reversed, padded}, Sizes.{Each}};

// One coordinate of the left half.
pub fn left_values(degree: u32, c: [i64; 6]) -> [i64; 6]
    requires { (1 ≤ degree) × (degree ≤ most_degree) × Each (2 ^ 44) c }
    ensures { result ≡ padded (left degree c) }
{
    match degree {
        4 => left_quartic(c),
        5 => left_quintic(c),
        _ => left_low(degree, c),
    }
}

// One coordinate of the left half of a curve of degree 1 to 3.
// It stands apart from `left_values` for the loops of these degrees, which are slower with degrees 4 and 5 in them
// (docs/landings/20).
pub fn left_low(degree: u32, c: [i64; 6]) -> [i64; 6]
    requires { (1 ≤ degree) × (degree ≤ 3) × Each (2 ^ 44) c }
    ensures { result ≡ padded (left degree c) }
{
    match degree {
        1 => left_line(c),
        2 => left_quadratic(c),
        _ => left_cubic(c),
    }
}

// One coordinate of the right half: the left one, mirrored before and after.
pub fn right_values(degree: u32, c: [i64; 6]) -> [i64; 6]
    requires { (1 ≤ degree) × (degree ≤ most_degree) × Each (2 ^ 44) c }
    ensures { result ≡ padded (right degree c) }
{
    let mirrored = reversed(degree, c);
    let half = left_values(degree, mirrored);
    reversed(degree, half)
}

// The control values in reverse order.
fn reversed(degree: u32, c: [i64; 6]) -> [i64; 6]
    requires { (1 ≤ degree) × (degree ≤ most_degree) }
    ensures { result ≡ padded (reversed degree c) }
{
    let c0 = c[0];
    let c1 = c[1];
    let c2 = c[2];
    let c3 = c[3];
    let c4 = c[4];
    let c5 = c[5];
    match degree {
        1 => [c1, c0, 0, 0, 0, 0],
        2 => [c2, c1, c0, 0, 0, 0],
        3 => [c3, c2, c1, c0, 0, 0],
        4 => [c4, c3, c2, c1, c0, 0],
        _ => [c5, c4, c3, c2, c1, c0],
    }
}

// The left half, one degree each. s, t, u and v are rows 1 to 4 of de Casteljau's triangle: sums of neighbours in the
// row before.
fn left_line(c: [i64; 6]) -> [i64; 6]
    requires { Each (2 ^ 44) c }
    ensures { result ≡ padded (left 1 c) }
{
    let c0 = c[0];
    let c1 = c[1];
    [2 * c0, c0 + c1, 0, 0, 0, 0]
}

fn left_quadratic(c: [i64; 6]) -> [i64; 6]
    requires { Each (2 ^ 44) c }
    ensures { result ≡ padded (left 2 c) }
{
    let c0 = c[0];
    let c1 = c[1];
    let c2 = c[2];
    let s0 = c0 + c1;
    let s1 = c1 + c2;
    [4 * c0, 2 * s0, s0 + s1, 0, 0, 0]
}

fn left_cubic(c: [i64; 6]) -> [i64; 6]
    requires { Each (2 ^ 44) c }
    ensures { result ≡ padded (left 3 c) }
{
    let c0 = c[0];
    let c1 = c[1];
    let c2 = c[2];
    let c3 = c[3];
    let s0 = c0 + c1;
    let s1 = c1 + c2;
    let s2 = c2 + c3;
    let t0 = s0 + s1;
    let t1 = s1 + s2;
    [8 * c0, 4 * s0, 2 * t0, t0 + t1, 0, 0]
}

fn left_quartic(c: [i64; 6]) -> [i64; 6]
    requires { Each (2 ^ 44) c }
    ensures { result ≡ padded (left 4 c) }
{
    let c0 = c[0];
    let c1 = c[1];
    let c2 = c[2];
    let c3 = c[3];
    let c4 = c[4];
    let s0 = c0 + c1;
    let s1 = c1 + c2;
    let s2 = c2 + c3;
    let s3 = c3 + c4;
    let t0 = s0 + s1;
    let t1 = s1 + s2;
    let t2 = s2 + s3;
    let u0 = t0 + t1;
    let u1 = t1 + t2;
    [16 * c0, 8 * s0, 4 * t0, 2 * u0, u0 + u1, 0]
}

fn left_quintic(c: [i64; 6]) -> [i64; 6]
    requires { Each (2 ^ 44) c }
    ensures { result ≡ padded (left 5 c) }
{
    let c0 = c[0];
    let c1 = c[1];
    let c2 = c[2];
    let c3 = c[3];
    let c4 = c[4];
    let c5 = c[5];
    let s0 = c0 + c1;
    let s1 = c1 + c2;
    let s2 = c2 + c3;
    let s3 = c3 + c4;
    let s4 = c4 + c5;
    let t0 = s0 + s1;
    let t1 = s1 + s2;
    let t2 = s2 + s3;
    let t3 = s3 + s4;
    let u0 = t0 + t1;
    let u1 = t1 + t2;
    let u2 = t2 + t3;
    let v0 = u0 + u1;
    let v1 = u1 + u2;
    [32 * c0, 16 * s0, 8 * t0, 4 * u0, 2 * v0, v0 + v1]
}

// A copy of the values, one by one.
// It is `c` again, and no plain copy, for speed: what is handed on is then not the caller's array (`Curve::same`).
pub fn same_values(c: [i64; 6]) -> [i64; 6]
    requires { Each (2 ^ 44) c }
    ensures { result ≡ c }
{
    [c[0], c[1], c[2], c[3], c[4], c[5]]
}
