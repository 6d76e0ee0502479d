// Where the curves of an outline stand. An outline is a list of numbers, for each curve its degree d, then x and y of
// its d + 1 control points.
ghost use Rattle.std.specs.Prelude.{◌≡◌, true};
ghost use Rattle.integers.specs.Entry.{entry};
ghost use Rattle.outline.specs.Curves.{degree_fine, degree_at, next_at};

// The degree that stands at index `at`.
pub fn degree_at(ns: &[i32], at: usize) -> u32
    requires { degree_fine (entry ns.now at) ≡ true }
    ensures { result ≡ degree_at ns.now at }
{
    ns[at] as u32
}

// Where the curve whose degree stands at index `at` is over, and the next begins.
pub fn next_at(ns: &[i32], at: usize) -> usize
    requires { degree_fine (entry ns.now at) ≡ true }
    ensures { result ≡ next_at ns.now at }
{
    let d = degree_at(ns, at) as usize;
    at + 1 + 2 * (d + 1)
}
