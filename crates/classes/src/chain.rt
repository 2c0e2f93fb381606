// Rows of one hash, each with the one before it: among them an earlier row of the same class is looked for.
ghost use Rattle.std.specs.Prelude.{◌≡◌, ◌+◌, ◌*◌, ◌<◌, ◌≤◌, ◌^◌, eqb, length, get_or, set};
ghost use Rattle.stab.specs.Basic.{◌and◌, nat};
ghost use Rattle.stab.specs.Formula.{formula_rows};
ghost use Rattle.formula.specs.Facts.{AllFormed};
ghost use Rattle.classes.specs.Class.{class_of};
ghost use Rattle.classes.specs.Key.{form_of, hash_of, hash_at, Done, forms_with, sides_with};

use crate::form::Form;
use crate::held::{head_at, held_at};
use formula::spread::spread;
use formula::{KIND, natural_in};

pub fn hash(kind: usize, low: usize, high: usize) -> usize
    requires { (kind < 2 ^ 32) × (low < 2 ^ 32) × (high < 2 ^ 32) }
    ensures { result ≡ hash_of kind low high }
{
    spread(low, high, kind, 0) / 2097152
}

// Row q has that key.
fn has_key(
    schema: &[i32],
    s: usize,
    proof: &[i32],
    sides: &[u32],
    q: usize,
    kind: usize,
    low: usize,
    high: usize,
) -> bool
    requires { (q < 1024) × (2 * q + 1 < length sides.now) }
    ensures { result ≡ (eqb (nat (formula_rows schema.now s proof.now q).kind) kind and eqb (get_or sides.now (2 * q) 0) low and eqb (get_or sides.now (2 * q + 1) 0) high) }
{
    if natural_in(schema, s, proof, q, KIND) != kind {
        return false;
    }
    if held_at(sides, 2 * q) != low {
        return false;
    }
    held_at(sides, 2 * q + 1) == high
}

// The class of row r, whose kind is given, whose numbers are f and whose hash is h: that of an earlier row with its key, else its
// own number.
pub fn class_of(
    schema: &[i32],
    s: usize,
    proof: &[i32],
    r: usize,
    kind: usize,
    f: Form,
    h: usize,
    forms: &[u32],
    sides: &[u32],
    heads: &[u16],
) -> usize
    requires r_bound { (r < 1024) × (kind ≡ nat (formula_rows schema.now s proof.now r).kind) × (4 * r ≤ length forms.now) × (2 * r ≤ length sides.now) × (h < length heads.now) }
    requires all_formed { AllFormed (formula_rows schema.now s proof.now) (r + 1) }
    requires done { Done (formula_rows schema.now s proof.now) forms.now sides.now heads.now r }
    requires f_value { (f ≡ form_of (formula_rows schema.now s proof.now) r) × (h ≡ hash_at (formula_rows schema.now s proof.now) r) }
    ensures { result ≡ class_of (formula_rows schema.now s proof.now) r }
{
    let mut next = head_at(heads, h);
    while 0 < next {
        let q = next - 1;
        if has_key(schema, s, proof, sides, q, kind, f.low, f.high) {
            return held_at(forms, 4 * q);
        }
        next = held_at(forms, 4 * q + 3);
    }
    r
}

// The numbers of row r are kept, and it is the latest row of its hash.
pub fn keep(
    r: usize,
    h: usize,
    class: usize,
    f: Form,
    forms: &mut [u32],
    sides: &mut [u32],
    heads: &mut [u16],
)
    requires r_bound { (r < 1024) × (4 * r + 3 < length forms.old) × (2 * r + 1 < length sides.old) × (h < length heads.old) }
    requires class_bound { (class < 2 ^ 32) × (f.shift < 2 ^ 32) × (f.lead < 2 ^ 32) × (f.low < 2 ^ 32) × (f.high < 2 ^ 32) }
    ensures forms_after { forms.new ≡ forms_with forms.old r class f (get_or heads.old h 0) }
    ensures sides_after { sides.new ≡ sides_with sides.old r f }
    ensures heads_after { heads.new ≡ set heads.old h (r + 1) }
{
    let i = 4 * r;
    forms[i] = class as u32;
    forms[i + 1] = f.shift as u32;
    forms[i + 2] = f.lead as u32;
    forms[i + 3] = heads[h] as u32;
    let k = 2 * r;
    sides[k] = f.low as u32;
    sides[k + 1] = f.high as u32;
    heads[h] = (r + 1) as u16;
}
