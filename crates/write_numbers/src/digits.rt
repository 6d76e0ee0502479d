// The digits of a natural put into a list of bytes. Each function asks for the room that it may need, and returns the
// place after what it has put.
ghost use Rattle.std.specs.Prelude.{[], ◌∷◌, ◌+◌, ◌≤◌, ◌<◌, length};
ghost use Rattle.write_numbers.specs.{Appends.{Appended, PutWithin}, Digits.{digits}};

// The digits of n, the last `places` of them at most.
pub fn put_digits(out: &mut [u8], at: usize, n: u64, places: usize) -> usize
    requires { at + places ≤ length out.old }
    ensures { PutWithin out.old at places (digits places n) out.new result }
{
    if places == 0 {
        return at;
    }
    if n < 10 {
        return put_byte(out, at, b'0' + n as u8);
    }
    let i = put_digits(out, at, n / 10, places - 1);
    put_byte(out, i, b'0' + (n % 10) as u8)
}

// One byte.
pub fn put_byte(out: &mut [u8], at: usize, b: u8) -> usize
    requires { at < length out.old }
    ensures { Appended out.old at (b ∷ []) out.new result }
{
    out[at] = b;
    at + 1
}
