// Division of 64-bit numbers rounded down and up. The rest of this crate is `specs/` and `proofs/`: integer reasoning
// for the proofs of every crate.
#![tactic(auto)]

ghost use Rattle.std.specs.Prelude.{◌≡◌};
ghost use lib.{IntN.{pos}, Signed.{◌<ℤ◌}};
ghost use Rattle.integers.specs.Rounding.{floor, ceiling};

// n / d rounded down, also below zero.
pub fn floor_div(n: i64, d: i64) -> i64
    requires { pos 0 <ℤ d }
    ensures { result ≡ floor n d }
{
    let q = n / d;
    let r = n % d;
    if r < 0 { q - 1 } else { q }
}

// n / d rounded up.
pub fn ceiling_div(n: i64, d: i64) -> i64
    requires { pos 0 <ℤ d }
    ensures { result ≡ ceiling n d }
{
    let q = n / d;
    let r = n % d;
    if 0 < r { q + 1 } else { q }
}
