// Formula rows: which are well formed, and how large they are.
#![tactic(auto)]

pub mod cells;
pub mod kept;
pub mod rows;
pub mod spread;

ghost use Rattle.std.specs.Prelude.{◌≡◌, ◌<◌, ◌^◌, neg_ℤ};
ghost use Rattle.stab.specs.Basic.{eq_z, nat};
ghost use Rattle.stab.specs.Formula.{formula_rows};
ghost use Rattle.formula.specs.Column.{column};

// The columns of a row by their number.
pub const KIND: usize = 0;

pub const A: usize = 1;

pub const B: usize = 2;

pub const C: usize = 3;

// The natural part of column k of row r, schema rows first.
pub fn natural_in(schema: &[i32], s: usize, proof: &[i32], r: usize, k: usize) -> usize
    requires { (r < 2 ^ 32) × (k < 4) }
    ensures { result ≡ nat (column (formula_rows schema.now s proof.now r) k) }
{
    if r < s {
        signed::natural_at(schema, 4 * r + k)
    } else {
        signed::natural_at(proof, 4 * (r - s) + k)
    }
}

// How far below 0 it lies.
pub fn under_in(schema: &[i32], s: usize, proof: &[i32], r: usize, k: usize) -> usize
    requires { (r < 2 ^ 32) × (k < 4) }
    ensures { result ≡ nat (neg_ℤ (column (formula_rows schema.now s proof.now r) k)) }
{
    if r < s {
        signed::under_at(schema, 4 * r + k)
    } else {
        signed::under_at(proof, 4 * (r - s) + k)
    }
}

// It is z.
pub fn is_in(schema: &[i32], s: usize, proof: &[i32], r: usize, k: usize, z: i32) -> bool
    requires { (r < 2 ^ 32) × (k < 4) }
    ensures { result ≡ eq_z (column (formula_rows schema.now s proof.now r) k) z }
{
    if r < s {
        signed::is_at(schema, 4 * r + k, z)
    } else {
        signed::is_at(proof, 4 * (r - s) + k, z)
    }
}
