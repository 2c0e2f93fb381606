// Classes of formula rows that are alike up to one shift, worked out once for each row.
#![tactic(auto)]

mod agreed;
mod chain;
pub mod compare;
mod form;
mod held;
mod numbers;

ghost use Rattle.std.specs.Prelude.{◌≡◌, ℕ, ◌+◌, ◌*◌, ◌<◌, ◌≤◌, length, get_or, set};
ghost use Rattle.stab.specs.Formula.{formula_rows};
ghost use Rattle.formula.specs.Facts.{AllFormed};
ghost use Rattle.classes.specs.Class.{class_of, AllWorked};
ghost use Rattle.classes.specs.Key.{form_of, hash_at, latest, Done, forms_with, sides_with, forms_after, sides_after, heads_after};

use formula::cells;

// One row more.
fn step(
    schema: &[i32],
    s: usize,
    proof: &[i32],
    r: usize,
    forms: &mut [u32],
    sides: &mut [u32],
    heads: &mut [u16],
)
    requires r_bound { (r < 1024) × (4 * r + 3 < length forms.old) × (2 * r + 1 < length sides.old) × (512 ≤ length heads.old) }
    requires all_formed { AllFormed (formula_rows schema.now s proof.now) (r + 1) }
    requires done { Done (formula_rows schema.now s proof.now) forms.old sides.old heads.old r }
    ensures forms_after { forms.new ≡ forms_with forms.old r (class_of (formula_rows schema.now s proof.now) r) (form_of (formula_rows schema.now s proof.now) r) (latest (formula_rows schema.now s proof.now) (hash_at (formula_rows schema.now s proof.now) r) r) }
    ensures sides_after { sides.new ≡ sides_with sides.old r (form_of (formula_rows schema.now s proof.now) r) }
    ensures heads_after { heads.new ≡ set heads.old (hash_at (formula_rows schema.now s proof.now) r) (r + 1) }
    ensures done_2 { Done (formula_rows schema.now s proof.now) forms.new sides.new heads.new (r + 1) }
{
    let w = cells::of_row(schema, s, proof, r);
    let kind = signed::natural(w.kind);
    let f = form::of_row(w, r, kind, forms);
    let h = chain::hash(kind, f.low, f.high);
    let class = chain::class_of(schema, s, proof, r, kind, f, h, forms, sides, heads);
    chain::keep(r, h, class, f, forms, sides, heads);
}

// The class, the shift and the leading part of each of n well-formed rows. What is lent: four numbers a row, which keep them;
// two numbers a row and 512 numbers, of which the latter are 0.
pub fn work_out(
    schema: &[i32],
    s: usize,
    proof: &[i32],
    n: usize,
    forms: &mut [u32],
    sides: &mut [u32],
    heads: &mut [u16],
)
    requires n_bound { (n ≤ 1024) × (4 * n ≤ length forms.old) × (2 * n ≤ length sides.old) × (512 ≤ length heads.old) }
    requires by_index { (h : ℕ) → h < 512 → get_or heads.old h 0 ≡ 0 }
    requires all_formed { AllFormed (formula_rows schema.now s proof.now) n }
    ensures forms_after { forms.new ≡ forms_after (formula_rows schema.now s proof.now) forms.old n }
    ensures sides_after { sides.new ≡ sides_after (formula_rows schema.now s proof.now) sides.old n }
    ensures heads_after { heads.new ≡ heads_after (formula_rows schema.now s proof.now) heads.old n }
    ensures all_worked { AllWorked (formula_rows schema.now s proof.now) forms.new n }
{
    for r in 0..n {
        step(schema, s, proof, r, forms, sides, heads);
    }
}
