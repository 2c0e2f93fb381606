// The new number of each row of one record.
ghost use Rattle.std.specs.Prelude.{◌≡◌, ◌<◌, ◌≤◌, length};
ghost use Rattle.tidied.specs.Tidied.{new_number};
ghost use Rattle.folds.specs.Folds.{AllSmall};
ghost use Rattle.jointrows.specs.Kept.{placed, Gives};

use formula::kept::kept_at;

// Where row r goes: t schema rows stand from `base` on, and proof rows from `after` on.
fn place(t: usize, base: usize, after: usize, r: usize) -> usize
    requires { (r < 1024) × (base ≤ 1024) × (after ≤ 2049) }
    ensures { (result ≡ placed t base after r) × (result ≤ 4096) }
{
    if r < t {
        return base + r;
    }
    after + (r - t)
}

// The new number of row r, of which the first s keep theirs.
fn new_number(new: &[u32], s: usize, r: usize) -> usize
    requires { (r ≤ 4096) × AllSmall new.now }
    ensures { (result ≡ new_number s new.now r) × (result ≤ 4096) }
{
    if r < s {
        return r;
    }
    kept_at(new, r - s)
}

// Rows are placed, and then put through new numbers.
pub fn fill(t: usize, base: usize, after: usize, new: &[u32], s: usize, numbers: &mut [u32])
    requires { (base ≤ 1024) × (after ≤ 2049) × (length numbers.old ≡ 1024) × AllSmall new.now }
    ensures { Gives numbers.new (λ r. new_number s new.now (placed t base after r)) × AllSmall numbers.new }
{
    for (r, x) in numbers.iter_mut().enumerate() {
        *x = new_number(new, s, place(t, base, after, r)) as u32;
    }
}
