// How far numbers that are given agree with the numbers of records.
ghost use Rattle.std.specs.Prelude.{◌≡◌, ◌∷◌, [], ◌+◌, ◌≤◌, ◌^◌, length};
ghost use Rattle.band_comparing.specs.Inside.{reach_number, reach_of, are_there};

// The first `reach` numbers given agree; with number n of the records at index i, as many, or i of them.
pub fn reach_number(given: &[i32], reach: usize, i: usize, n: i32) -> usize
    requires { reach ≤ length given.now }
    ensures { result ≡ reach_number given.now reach i n }
{
    if reach <= i {
        return reach;
    }
    let there = given[i];
    if there == n { reach } else { i }
}

// So with four numbers from index `at` on, one after the other.
fn reach_each(given: &[i32], reach: usize, at: usize, a: i32, b: i32, c: i32, d: i32) -> usize
    requires { (reach ≤ length given.now) × (at + 4 ≤ 2 ^ 63) }
    ensures { result ≡ reach_of given.now reach at (a ∷ b ∷ c ∷ d ∷ []) }
{
    let first = reach_number(given, reach, at, a);
    let second = reach_number(given, first, at + 1, b);
    let third = reach_number(given, second, at + 2, c);
    reach_number(given, third, at + 3, d)
}

// Whether four numbers stand in a list from index `at` on.
fn are_there(given: &[i32], at: usize, a: i32, b: i32, c: i32, d: i32) -> bool
    requires { at + 4 ≤ length given.now }
    ensures { result ≡ are_there given.now at a b c d }
{
    let p = given[at];
    let q = given[at + 1];
    let r = given[at + 2];
    let s = given[at + 3];
    if p != a || q != b || r != c {
        return false;
    }
    s == d
}

// So with the four numbers of a box. Nearly always they are all there.
pub fn reach_box(given: &[i32], reach: usize, at: usize, a: i32, b: i32, c: i32, d: i32) -> usize
    requires { (reach ≤ length given.now) × (at + 4 ≤ 2 ^ 63) }
    ensures { result ≡ reach_of given.now reach at (a ∷ b ∷ c ∷ d ∷ []) }
{
    if at + 4 <= reach && are_there(given, at, a, b, c, d) {
        return reach;
    }
    reach_each(given, reach, at, a, b, c, d)
}
