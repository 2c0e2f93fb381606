// The numbers of two rows side by side.
ghost use Rattle.std.specs.Prelude.{◌≡◌, true, ℕ, ◌+◌, ◌*◌, ◌<◌, ◌≤◌, ◌^◌, pos, ◌+ℤ◌, ◌-ℤ◌, get_or};
ghost use Rattle.stab.specs.Basic.{◌and◌, eq_z, nat};
ghost use Rattle.stab.specs.Formula.{Row, offset, tree, well_formed};
ghost use Rattle.stab.specs.Alike.{lower, alike};
ghost use Rattle.formula.specs.Cells.{row_of};
ghost use Rattle.classes.specs.Class.{ground};
ghost use Rattle.classes.specs.Key.{fitting};

use formula::cells::Cells;
use formula::kept::kept_at;

// z and up - down more is x.
fn is_raised(z: i32, x: i32, up: usize, down: usize) -> bool
    requires up_bound { (up < 2 ^ 32) × (down < 2 ^ 32) }
    requires z_value { (offset z ≡ true) × (offset x ≡ true) }
    ensures { result ≡ eq_z (z +ℤ (pos up -ℤ pos down)) x }
{
    signed::natural(z) + up + signed::under(x) == signed::natural(x) + signed::under(z) + down
}

// Of two literals of one kind, by their columns, the second is the first lowered by up - down, a literal on i taken for one on
// n: symbol, b and c.
pub fn literals_agree(x: Cells, y: Cells, up: usize, down: usize) -> bool
    requires { (up < 2 ^ 32) × (down < 2 ^ 32) × (offset x.c ≡ true) × (offset y.c ≡ true) }
    ensures { (rows : ℕ → Row) (f g : ℕ) → row_of x ≡ rows f → row_of y ≡ rows g → well_formed rows f ≡ true → well_formed rows g ≡ true → nat (rows f).kind ≡ nat (rows g).kind → 2 ≤ nat (rows f).kind → nat (rows f).kind < 4 → result ≡ alike (lower (pos up -ℤ pos down) (ground (tree rows f))) (ground (tree rows g)) }
{
    if signed::natural(x.a) != signed::natural(y.a) {
        return false;
    }
    let base = signed::natural(x.b);
    let other = signed::natural(y.b);
    if base == 0 {
        if other != 0 {
            return false;
        }
        return is_raised(x.c, y.c, 0, 0);
    }
    if other == 0 {
        return false;
    }
    is_raised(x.c, y.c, down, up)
}

// The ranges of two iterations, by their columns: b as it is, and the limit n - c as n - (c + up - down).
pub fn ranges_agree(x: Cells, y: Cells, up: usize, down: usize) -> bool
    requires up_bound { (up < 2 ^ 32) × (down < 2 ^ 32) }
    requires b_value { (offset x.b ≡ true) × (offset y.b ≡ true) × (offset x.c ≡ true) × (offset y.c ≡ true) }
    ensures { result ≡ (eq_z x.b y.b and eq_z (x.c +ℤ (pos up -ℤ pos down)) y.c) }
{
    if !is_raised(x.b, y.b, 0, 0) {
        return false;
    }
    is_raised(x.c, y.c, up, down)
}

// The shift of row f, lowered by up - down, is that of row g.
pub fn shifts_fit(forms: &[u32], up: usize, down: usize, f: usize, g: usize) -> bool
    requires { (up < 2 ^ 32) × (down < 2 ^ 32) × (f < 1024) × (g < 1024) }
    ensures { result ≡ fitting up down (get_or forms.now (4 * f + 1) 0) (get_or forms.now (4 * g + 1) 0) }
{
    let shift = kept_at(forms, 4 * f + 1);
    let other = kept_at(forms, 4 * g + 1);
    if shift == 0 {
        return other == 0;
    }
    other + up == shift + down
}
