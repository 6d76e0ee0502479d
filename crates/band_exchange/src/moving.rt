// Numbers of a list moved to another place of it.
ghost use Rattle.std.specs.Prelude.{◌≡◌, ◌+◌, ◌≤◌, length};
ghost use Rattle.band_exchange.specs.Inside.{moved_to};

// The n numbers from index `from` on, moved to index `to`. The two places may overlap.
pub fn move_numbers(list: &mut [i32], from: usize, to: usize, n: usize)
    requires { (from + n ≤ length list.old) × (to + n ≤ length list.old) }
    ensures { list.new ≡ moved_to list.old from to n }
{
    if to == from {
        return;
    }
    if to < from {
        move_forward(list, from, to, n);
    } else {
        move_back(list, from, to, n);
    }
}

// Towards the front: the first number is moved first.
fn move_forward(list: &mut [i32], from: usize, to: usize, n: usize)
    requires { (from + n ≤ length list.old) × (to ≤ from) }
    ensures { list.new ≡ moved_to list.old from to n }
{
    for i in 0..n {
        let z = list[from + i];
        list[to + i] = z;
    }
}

// Towards the end: the last number is moved first.
fn move_back(list: &mut [i32], from: usize, to: usize, n: usize)
    requires { (to + n ≤ length list.old) × (from ≤ to) }
    ensures { list.new ≡ moved_to list.old from to n }
{
    for left in (0..n).rev() {
        let z = list[from + left];
        list[to + left] = z;
    }
}
