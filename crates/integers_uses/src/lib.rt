// Worked uses of crate `integers`, checked with the rest: each function needs one kind of answer, and its proof file
// gives it in a line.
#![tactic(auto)]

ghost use Rattle.std.specs.Prelude.{◌≡◌, ◌<◌, ◌^◌, ◌*◌};
ghost use lib.{IntN.{pos, neg_ℤ, ◌+ℤ◌, ◌-ℤ◌, ◌*ℤ◌}, Signed.{quot_z, rem_z, shr_z, mag}};
ghost use Rattle.integers_uses.specs.Uses.{SmallWeights, Distance};

// Products and a sum of bounded numbers do not wrap.
pub fn weighed(p: i64, r: i64, a: i64, b: i64) -> i64
    requires { SmallWeights p r a b }
    ensures { result ≡ r *ℤ a +ℤ p *ℤ b }
{
    r * a + p * b
}

// Negation, a quotient, a remainder and a shift.
pub fn folded(a: i32) -> i64
    ensures { result ≡ neg_ℤ a +ℤ quot_z a (pos 7) *ℤ rem_z a (pos 5) -ℤ shr_z a 8 }
{
    let w = a as i64;
    -w + (w / 7) * (w % 5) - (w >> 3)
}

// Casts among i32, i64, u32 and usize, where they fit.
pub fn widened(a: i32, n: u32, k: usize) -> i64
    requires { k < 2 ^ 20 }
    ensures { result ≡ a +ℤ pos n *ℤ pos k }
{
    (a as i64) + (n as i64) * (k as i64)
}

pub fn narrowed(a: i64) -> i32
    requires { mag a < 2 ^ 30 }
    ensures { result ≡ a +ℤ pos 1 }
{
    (a + 1) as i32
}

// A comparison, and what each branch knows by it.
pub fn distance(a: i64, b: i64) -> i64
    requires { (mag a < 2 ^ 61) × (mag b < 2 ^ 61) }
    ensures { Distance a b result }
{
    if a < b { b - a } else { a - b }
}

// An equality of two signed numbers, which the machine tests on bits.
pub fn same(a: i32, b: i32) -> i32
    ensures { result ≡ b }
{
    if a == b { a } else { b }
}

// A table, whose rule is one computed test.
const SQUARES: [i64; 8] = [0, 1, 4, 9, 16, 25, 36, 49];

pub fn square(n: usize) -> i64
    requires { n < 8 }
    ensures { result ≡ pos (n * n) }
{
    SQUARES[n]
}
