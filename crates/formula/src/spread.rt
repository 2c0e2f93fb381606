// One number made of four, by which a table finds what may be equal.
ghost use Rattle.std.specs.Prelude.{◌≡◌, ◌<◌, ◌^◌};
ghost use Rattle.formula.specs.Spread.{spread_of};

pub fn spread(a: usize, b: usize, c: usize, d: usize) -> usize
    requires { (a < 2 ^ 32) × (b < 2 ^ 32) × (c < 2 ^ 32) × (d < 2 ^ 32) }
    ensures { (result ≡ spread_of a b c d) × (result < 2 ^ 30) }
{
    let low = 919847653 * a + 788010381 * b;
    let high = 675068701 * c + 578314401 * d;
    (low + high) % 1073741824
}
