// The least depth that meets the premise of the depth claim, without halving and with no number of more than 64 bits.
ghost use Rattle.std.specs.Prelude.{◌≡◌, ◌<◌, ◌^◌, ◌≤◌, pos};
ghost use Rattle.band_foretell.specs.Inside.{doubled_fits, least_depth, depth_found};

// Whether 2 a² ≤ b², with no product. With p = q' + p' and q = q' + 2 p' the question of p and q is that of p' and q'
// turned round, since q² − 2 p² = 2 p'² − q'²; p + q falls.
fn doubled_fits(a: u64, b: u64) -> bool
    requires { (a < 2 ^ 62) × (b < 2 ^ 62) }
    ensures { result ≡ doubled_fits (pos a) (pos b) }
{
    let mut p = a;
    let mut q = b;
    let mut turned = false;
    loop {
        if q < p {
            return turned;
        }
        if 2 * p <= q {
            return !turned;
        }
        let next = q - p;
        q = 2 * p - q;
        p = next;
        turned = !turned;
    }
}

// The least depth up to `deepest` that meets the premise, for G, M and a tolerance. The premise is divided by 16, so
// that every number fits 64 bits.
pub fn least_depth(gap: u64, largest: u64, t: u64, deepest: u32) -> Option<u32>
    requires { (gap ≤ 7500) × (largest ≤ 2 ^ 22) × (t ≤ 2 ^ 20) × (deepest ≤ 8) }
    ensures { result ≡ depth_found (least_depth gap largest t deepest) }
{
    let bend = gap * largest;
    let wide = 625 * t;
    let mut parts = 1;
    for j in 0..=deepest {
        if doubled_fits(bend + 1250 * parts, wide * parts) {
            return Some(j);
        }
        parts *= 4;
    }
    None
}
