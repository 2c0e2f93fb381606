// A row with its parts under their new numbers.
ghost use Rattle.std.specs.Prelude.{◌≡◌, ◌+◌, ◌*◌, ◌<◌, ◌^◌, length};
ghost use Rattle.std.proofs.lemmas.List.Edits.{sets};
ghost use Rattle.stab.specs.Formula.{row_at};
ghost use Rattle.tidied.specs.Tidied.{renumbered, columns, new_number};
ghost use Rattle.folds.specs.Folds.{AllSmall};

use crate::number;

// Column a of row k: a part of each row that has parts.
fn left(proof: &[i32], k: usize, s: usize, numbers: &[u32]) -> i32
    requires { (k < 2 ^ 32) × AllSmall numbers.now }
    ensures { result ≡ (renumbered (new_number s numbers.now) (row_at proof.now k)).a }
{
    let kind = signed::natural_at(proof, 4 * k);
    let a = signed::at(proof, 4 * k + 1);
    if kind < 4 {
        return a;
    }
    if kind < 8 {
        return number::through(numbers, s, a);
    }
    a
}

// Column b: a part of an and or an or.
fn right(proof: &[i32], k: usize, s: usize, numbers: &[u32]) -> i32
    requires { (k < 2 ^ 32) × AllSmall numbers.now }
    ensures { result ≡ (renumbered (new_number s numbers.now) (row_at proof.now k)).b }
{
    let kind = signed::natural_at(proof, 4 * k);
    let b = signed::at(proof, 4 * k + 2);
    if kind < 4 {
        return b;
    }
    if kind < 6 {
        return number::through(numbers, s, b);
    }
    b
}

// Proof row k, with its parts under their new numbers, goes to row `to` of a table.
pub fn put(proof: &[i32], k: usize, s: usize, numbers: &[u32], table: &mut [i32], to: usize)
    requires { (k < 2 ^ 32) × (4 * to + 3 < length table.old) × AllSmall numbers.now }
    ensures { table.new ≡ sets table.old (4 * to) (columns (renumbered (new_number s numbers.now) (row_at proof.now k))) }
{
    let at = 4 * to;
    let from = 4 * k;
    table[at] = signed::at(proof, from);
    table[at + 1] = left(proof, k, s, numbers);
    table[at + 2] = right(proof, k, s, numbers);
    table[at + 3] = signed::at(proof, from + 3);
}
