// What is remembered of comparisons: for each row the smallest that it was found to agree with.
ghost use Rattle.std.specs.Prelude.{◌≡◌, ◌+◌, ◌*◌, ◌<◌, ◌^◌, eqb, length, get_or};
ghost use Rattle.stab.specs.Basic.{◌and◌};
ghost use Rattle.classes.specs.Key.{fitting};
ghost use Rattle.classes.specs.Agreed.{stand_in, united_in};

use crate::numbers::shifts_fit;

// The row that stands for row r.
fn stand_in(agreed: &[u32], r: usize) -> usize
    requires { (r < 1024) × (r < length agreed.now) }
    ensures { (result ≡ stand_in agreed.now r) × (result + 1 < 2 ^ 32) }
{
    let number = agreed[r] as usize;
    if number == 0 {
        return r;
    }
    number - 1
}

// Rows f and g are remembered to agree, f lowered by up - down: one row stands for both, and their shifts fit.
pub fn is_known(forms: &[u32], agreed: &[u32], up: usize, down: usize, f: usize, g: usize) -> bool
    requires { (up < 2 ^ 32) × (down < 2 ^ 32) × (f < 1024) × (g < 1024) × (f < length agreed.now) × (g < length agreed.now) }
    ensures { result ≡ (eqb (stand_in agreed.now f) (stand_in agreed.now g) and fitting up down (get_or forms.now (4 * f + 1) 0) (get_or forms.now (4 * g + 1) 0)) }
{
    if stand_in(agreed, f) != stand_in(agreed, g) {
        return false;
    }
    shifts_fit(forms, up, down, f, g)
}

// They are from now on: the smaller of the rows that stood for them stands for both.
pub fn remember(agreed: &mut [u32], f: usize, g: usize)
    requires { (f < 1024) × (g < 1024) × (f < length agreed.old) × (g < length agreed.old) }
    ensures { agreed.new ≡ united_in agreed.old f g }
{
    let p = stand_in(agreed, f);
    let q = stand_in(agreed, g);
    if p < q {
        agreed[g] = (p + 1) as u32;
        return;
    }
    agreed[f] = (q + 1) as u32;
}
