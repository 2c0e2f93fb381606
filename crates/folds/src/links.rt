// The earliest row with the columns of another, looked for among the rows of its place.
ghost use Rattle.std.specs.Prelude.{◌≡◌, ℕ, ◌<◌, ◌≤◌, length, get_or};
ghost use Rattle.stab.specs.Formula.{formula_rows};
ghost use Rattle.repeats.specs.Places.{place_of, Linked};
ghost use Rattle.tidied.specs.Tidied.{earliest};
ghost use Rattle.folds.specs.Folds.{row_or};

use formula::cells;
use formula::kept::number_at;
use repeats::places;
use repeats::row::same;

// The earliest row with the columns of row r, whose place is h, or r itself. The rows of a place are gone through from the latest back to
// the first.
pub fn first(
    schema: &[i32],
    s: usize,
    table: &[i32],
    r: usize,
    h: usize,
    next: &[u16],
    heads: &[u16],
) -> usize
    requires r_bound { r < 2049 }
    requires linked { Linked (formula_rows schema.now s table.now) next.now heads.now r }
    requires h_value { h ≡ place_of (formula_rows schema.now s table.now r) }
    ensures { result ≡ row_or r (earliest (formula_rows schema.now s table.now) r (formula_rows schema.now s table.now r)) }
{
    let mut best = r;
    let mut rest = number_at(heads, h);
    while 0 < rest {
        let q = rest - 1;
        if same(schema, s, table, q, r) {
            best = q;
        }
        rest = number_at(next, q);
    }
    best
}

// The schema rows are linked. What is lent: a number for each row, and one for each place, which are 0.
pub fn schema_rows(schema: &[i32], s: usize, table: &[i32], next: &mut [u16], heads: &mut [u16])
    requires s_bound { (s ≤ 2049) × (s ≤ length next.old) × (1024 ≤ length heads.old) }
    requires by_index { (h : ℕ) → h < 1024 → get_or heads.old h 0 ≡ 0 }
    ensures { Linked (formula_rows schema.now s table.now) next.new heads.new s }
{
    for r in 0..s {
        let h = places::place(cells::of_row(schema, s, table, r));
        places::keep(r, h, next, heads);
    }
}
