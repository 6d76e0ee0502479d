// One coordinate of a curve carried on past its end, over a stretch of parameters 2^k times as long, by its degree.
#![tactic(auto)]

ghost use Rattle.std.specs.Prelude.{◌≡◌, ◌^◌, ◌≤◌};
ghost use Rattle.setting.specs.Setting.{most_degree};
ghost use Rattle.curve_halves.specs.{Halves.{padded}, Sizes.{Each}};
ghost use Rattle.curve_onward.specs.Onward.{forward_differences, onward};

// One coordinate of the curve carried on.
pub fn onward_values(degree: u32, k: u32, c: [i64; 6]) -> [i64; 6]
    requires { (1 ≤ degree) × (degree ≤ most_degree) × (k ≤ 7) × Each (2 ^ 44) c }
    ensures { result ≡ padded (onward degree k c) }
{
    match degree {
        4 => onward_quartic(k, c),
        5 => onward_quintic(k, c),
        _ => onward_low(degree, k, c),
    }
}

// One coordinate of a curve of degree 1 to 3 carried on.
// It stands apart from `onward_values` for the loops of these degrees, which are slower with degrees 4 and 5 in them
// (docs/landings/20).
pub fn onward_low(degree: u32, k: u32, c: [i64; 6]) -> [i64; 6]
    requires { (1 ≤ degree) × (degree ≤ 3) × (k ≤ 7) × Each (2 ^ 44) c }
    ensures { result ≡ padded (onward degree k c) }
{
    match degree {
        1 => onward_line(k, c),
        2 => onward_quadratic(k, c),
        _ => onward_cubic(k, c),
    }
}

// One degree each. d are the coordinate's forward differences and e those of d; r are the control values made, s their
// forward differences and t those of s. What is made begins where the coordinate ends, and so do the forward
// differences.
fn onward_line(k: u32, c: [i64; 6]) -> [i64; 6]
    requires { (k ≤ 7) × Each (2 ^ 44) c }
    ensures { result ≡ padded (onward 1 k c) }
{
    let c0 = c[0];
    let c1 = c[1];
    let r0 = c1 >> k;
    [r0, r0 + (c1 - c0), 0, 0, 0, 0]
}

fn onward_quadratic(k: u32, c: [i64; 6]) -> [i64; 6]
    requires { (k ≤ 7) × Each (2 ^ 44) c }
    ensures { result ≡ padded (onward 2 k c) }
{
    let c0 = c[0];
    let c1 = c[1];
    let c2 = c[2];
    let d0 = c1 - c0;
    let d1 = c2 - c1;
    let s0 = d1 >> k;
    let s1 = s0 + (d1 - d0);
    let r0 = c2 >> (2 * k);
    let r1 = r0 + s0;
    [r0, r1, r1 + s1, 0, 0, 0]
}

fn onward_cubic(k: u32, c: [i64; 6]) -> [i64; 6]
    requires { (k ≤ 7) × Each (2 ^ 46) c }
    ensures { result ≡ padded (onward 3 k c) }
{
    let c0 = c[0];
    let c1 = c[1];
    let c2 = c[2];
    let c3 = c[3];
    let d0 = c1 - c0;
    let d1 = c2 - c1;
    let d2 = c3 - c2;
    let e0 = d1 - d0;
    let e1 = d2 - d1;
    let t0 = e1 >> k;
    let t1 = t0 + (e1 - e0);
    let s0 = d2 >> (2 * k);
    let s1 = s0 + t0;
    let s2 = s1 + t1;
    let r0 = c3 >> (3 * k);
    let r1 = r0 + s0;
    let r2 = r1 + s1;
    [r0, r1, r2, r2 + s2, 0, 0]
}

// Here the forward differences are carried on by the degree below. s are what comes of them.
fn onward_quartic(k: u32, c: [i64; 6]) -> [i64; 6]
    requires { (k ≤ 7) × Each (2 ^ 45) c }
    ensures { result ≡ padded (onward 4 k c) }
{
    let s = onward_cubic(k, forward_differences(c));
    let c4 = c[4];
    let s0 = s[0];
    let s1 = s[1];
    let s2 = s[2];
    let s3 = s[3];
    let r0 = c4 >> (4 * k);
    let r1 = r0 + s0;
    let r2 = r1 + s1;
    let r3 = r2 + s2;
    [r0, r1, r2, r3, r3 + s3, 0]
}

fn onward_quintic(k: u32, c: [i64; 6]) -> [i64; 6]
    requires { (k ≤ 7) × Each (2 ^ 44) c }
    ensures { result ≡ padded (onward 5 k c) }
{
    let s = onward_quartic(k, forward_differences(c));
    let c5 = c[5];
    let s0 = s[0];
    let s1 = s[1];
    let s2 = s[2];
    let s3 = s[3];
    let s4 = s[4];
    let r0 = c5 >> (5 * k);
    let r1 = r0 + s0;
    let r2 = r1 + s1;
    let r3 = r2 + s2;
    let r4 = r3 + s3;
    [r0, r1, r2, r3, r4, r4 + s4]
}

// The forward differences of the control values of one coordinate, the last one of degree 5.
fn forward_differences(c: [i64; 6]) -> [i64; 6]
    requires { Each (2 ^ 45) c }
    ensures { result ≡ padded (forward_differences c) }
{
    let c0 = c[0];
    let c1 = c[1];
    let c2 = c[2];
    let c3 = c[3];
    let c4 = c[4];
    let c5 = c[5];
    [c1 - c0, c2 - c1, c3 - c2, c4 - c3, c5 - c4, 0]
}
