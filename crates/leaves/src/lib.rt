// One column of a formula row against another's.
#![tactic(auto)]

ghost use Rattle.std.specs.Prelude.{◌≡◌, ◌<◌, ◌^◌, pos, get_or};
ghost use Rattle.stab.specs.Basic.{eq_z};
ghost use Rattle.stab.specs.Formula.{formula_rows};
ghost use Rattle.formula.specs.Column.{column};

// Column l of row q is what stands at i in t.
fn same_as(schema: &[i32], s: usize, proof: &[i32], q: usize, l: usize, t: &[i32], i: usize) -> bool
    requires { (q < 2 ^ 32) × (l < 4) }
    ensures { result ≡ eq_z (get_or t.now i (pos 0)) (column (formula_rows schema.now s proof.now q) l) }
{
    if q < s {
        signed::same_at(t, i, schema, 4 * q + l)
    } else {
        signed::same_at(t, i, proof, 4 * (q - s) + l)
    }
}

// Column k of row r is column l of row q.
pub fn same_in(
    schema: &[i32],
    s: usize,
    proof: &[i32],
    r: usize,
    k: usize,
    q: usize,
    l: usize,
) -> bool
    requires r_bound { (r < 2 ^ 32) × (k < 4) }
    requires q_bound { (q < 2 ^ 32) × (l < 4) }
    ensures { result ≡ eq_z (column (formula_rows schema.now s proof.now r) k) (column (formula_rows schema.now s proof.now q) l) }
{
    if r < s {
        same_as(schema, s, proof, q, l, schema, 4 * r + k)
    } else {
        same_as(schema, s, proof, q, l, proof, 4 * (r - s) + k)
    }
}
