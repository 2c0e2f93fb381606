// Whether two rows are equal, by their columns.
ghost use Rattle.std.specs.Prelude.{◌≡◌, ◌<◌, ◌^◌};
ghost use Rattle.stab.specs.Formula.{row_at, formula_rows};
ghost use Rattle.stab.specs.Check.{same_row};

use signed::same_at;

// Row p of one table has the columns of row q of another.
fn same_rows(t: &[i32], p: usize, u: &[i32], q: usize) -> bool
    requires { (p < 2 ^ 32) × (q < 2 ^ 32) }
    ensures { result ≡ same_row (row_at t.now p) (row_at u.now q) }
{
    let i = 4 * p;
    let j = 4 * q;
    if !same_at(t, i, u, j) {
        return false;
    }
    if !same_at(t, i + 1, u, j + 1) {
        return false;
    }
    if !same_at(t, i + 2, u, j + 2) {
        return false;
    }
    same_at(t, i + 3, u, j + 3)
}

// Row q, schema rows first, has the columns of row p of a table.
fn same_as(schema: &[i32], s: usize, proof: &[i32], q: usize, t: &[i32], p: usize) -> bool
    requires { (q < 2 ^ 32) × (p < 2 ^ 32) }
    ensures { result ≡ same_row (formula_rows schema.now s proof.now q) (row_at t.now p) }
{
    if q < s {
        same_rows(schema, q, t, p)
    } else {
        same_rows(proof, q - s, t, p)
    }
}

// Row q has the columns of row r.
pub fn same(schema: &[i32], s: usize, proof: &[i32], q: usize, r: usize) -> bool
    requires { (q < 2 ^ 32) × (r < 2 ^ 32) }
    ensures { result ≡ same_row (formula_rows schema.now s proof.now q) (formula_rows schema.now s proof.now r) }
{
    if r < s {
        same_as(schema, s, proof, q, schema, r)
    } else {
        same_as(schema, s, proof, q, proof, r - s)
    }
}
