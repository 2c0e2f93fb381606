// The rows that a row of a small schema can be, by their places in ascending order.
ghost use Rattle.std.specs.Prelude.{◌≡◌, [], ◌+◌, ◌<◌, ◌≤◌, pos, ◌-ℤ◌, length, get_or};
ghost use Rattle.stab.specs.Formula.{row_at};
ghost use Rattle.stab.specs.Check.{same_row};
ghost use Rattle.small.specs.Small.{row_of, rows_for};
ghost use Rattle.small.specs.Fits.{columns};
ghost use Rattle.nextsmall.specs.Places.{as_row, RowPlace};

// The four numbers of a row.
#[derive(Clone, Copy)]
pub struct Columns {
    pub kind: i32,
    pub a: i32,
    pub b: i32,
    pub c: i32,
}

// One less than a small number.
fn less_one(v: usize) -> i32
    requires { v ≤ 2 }
    ensures { result ≡ pos v -ℤ pos 1 }
{
    if v == 0 {
        return signed::with_sign(1, true);
    }
    signed::of(v - 1)
}

// A row by its numbers, the last of which is given one higher.
fn row(kind: usize, a: usize, b: usize, higher: usize) -> Columns
    requires { (kind ≤ 7) × (a ≤ 1) × (b ≤ 2) × (higher ≤ 2) }
    ensures { columns (as_row result) ≡ row_of kind (pos a) (pos b) (pos higher -ℤ pos 1) }
{
    Columns {
        kind: signed::of(kind),
        a: signed::of(a),
        b: signed::of(b),
        c: less_one(higher),
    }
}

// How many rows row r can be.
pub fn count(r: usize) -> usize
    requires { r < 3 }
    ensures { (result ≡ length (rows_for r)) × (0 < result) × (result ≤ 36) }
{
    if r == 0 {
        return 20;
    }
    if r == 1 {
        return 26;
    }
    36
}

// A row without parts: true, false, literals and negated literals, offsets from -1 on.
fn plain(d: usize) -> Columns
    requires { d < 20 }
    ensures { columns (as_row result) ≡ get_or (rows_for 0) d [] }
{
    if d < 2 {
        return row(d, 0, 0, 1);
    }
    let e = d - 2;
    row(2 + e / 9, 0, e % 9 / 3, e % 3)
}

// A row over row 0 alone.
fn over_one(e: usize) -> Columns
    requires { e < 6 }
    ensures { columns (as_row result) ≡ get_or (rows_for 1) (20 + e) [] }
{
    if e < 2 {
        return row(4 + e, 0, 0, 1);
    }
    let f = e - 2;
    row(6 + f / 2, 0, 0, 1 + f % 2)
}

// A row over rows 0 and 1.
fn over_two(e: usize) -> Columns
    requires { e < 16 }
    ensures { columns (as_row result) ≡ get_or (rows_for 2) (20 + e) [] }
{
    if e < 8 {
        return row(4 + e / 4, e % 4 / 2, e % 2, 1);
    }
    let f = e - 8;
    row(6 + f / 4, f % 4 / 2, 0, 1 + f % 2)
}

// What row r can be, at place d.
pub fn candidate(r: usize, d: usize) -> Columns
    requires { (r < 3) × (d < length (rows_for r)) }
    ensures { columns (as_row result) ≡ get_or (rows_for r) d [] }
{
    if d < 20 {
        return plain(d);
    }
    if r == 1 {
        return over_one(d - 20);
    }
    over_two(d - 20)
}

// Row r of a table has these numbers.
fn same(table: &[i32], r: usize, w: Columns) -> bool
    requires { r < 3 }
    ensures { result ≡ same_row (row_at table.now r) (as_row w) }
{
    let at = 4 * r;
    if !signed::is_at(table, at, w.kind) {
        return false;
    }
    if !signed::is_at(table, at + 1, w.a) {
        return false;
    }
    if !signed::is_at(table, at + 2, w.b) {
        return false;
    }
    signed::is_at(table, at + 3, w.c)
}

// The place of row r of a table among the rows that it can be, or their number where it is none of them.
pub fn place(table: &[i32], r: usize) -> usize
    requires { r < 3 }
    ensures { RowPlace table.now r result }
{
    let n = count(r);
    for d in 0..n {
        if same(table, r, candidate(r, d)) {
            return d;
        }
    }
    n
}
