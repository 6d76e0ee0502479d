// One number in binary64: whether it is a whole number, that number where it is small, and quotients of whole numbers
// by a power of two, which are exact.
#![tactic(auto)]

ghost use Rattle.std.specs.Prelude.{◌≡◌, true};
ghost use Rattle.binary64.specs.{Exact.{Exactly}, Read.{whole_of}, Inside.{near_of, near_number}};

// Whether x is a whole number, of any size: cut to an i64 and made an f64 again, it is as it was.
pub fn is_whole(x: f64) -> bool
    ensures { result ≡ whole_of x }
{
    if x >= -9223372036854775808.0 && x < 9223372036854775808.0 {
        let cut = std::num::truncating_f64_to_i64(x);
        return std::num::nearest_i64_to_f64(cut) == x;
    }
    // From 2^63 on every f64 is a whole number, but for the infinities and the NaN.
    x.is_finite()
}

// Whether x is a whole number from −1,048,576 to 1,048,576.
pub fn is_near(x: f64) -> bool
    ensures { result ≡ near_of x }
{
    if x >= -1048576.0 && x <= 1048576.0 {
        let cut = std::num::truncating_f64_to_i64(x) as i32;
        return cut as f64 == x;
    }
    false
}

// That number. The cast of −0.0 to an integer is not defined; with 0.0 added it is 0.0, and no other number changes.
pub fn near_number(x: f64) -> i64
    requires { near_of x ≡ true }
    ensures { result ≡ near_number x }
{
    (x + 0.0) as i64
}

// n sixteenths as a number.
pub fn sixteenth(n: i32) -> f64
    ensures { Exactly result n 16 }
{
    n as f64 / 16.0
}

// n thirty-seconds as a number.
pub fn thirty_second(n: i32) -> f64
    ensures { Exactly result n 32 }
{
    n as f64 / 32.0
}
