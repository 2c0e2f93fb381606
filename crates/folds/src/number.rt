// The new numbers of rows.
ghost use Rattle.std.specs.Prelude.{◌≡◌};
ghost use Rattle.tidied.specs.Tidied.{through, new_number};
ghost use Rattle.folds.specs.Folds.{AllSmall};

use formula::kept::kept_at;

// A row's number put through the new numbers, one for each proof row; the s schema rows keep theirs, and a number that names no row,
// -1, stays.
pub fn through(numbers: &[u32], s: usize, z: i32) -> i32
    requires { AllSmall numbers.now }
    ensures { result ≡ through (new_number s numbers.now) z }
{
    if signed::less(z, 0) {
        return z;
    }
    let r = signed::natural(z);
    if r < s {
        return z;
    }
    signed::of(kept_at(numbers, r - s))
}
