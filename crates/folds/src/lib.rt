// Proof rows folded into their earliest equals, found by links between rows that may be equal.
#![tactic(auto)]

mod links;
pub mod number;
pub mod row;

ghost use Rattle.std.specs.Prelude.{◌≡◌, ◌+◌, ◌*◌, ◌<◌, ◌≤◌, pos, length, replicate};
ghost use Rattle.stab.specs.Text.{padded};
ghost use Rattle.tidied.specs.Tidied.{folding};
ghost use Rattle.folds.specs.Folds.{AllSmall, Folds};

use formula::cells;
use repeats::places;

// Proof row k, with its parts under their new numbers, takes the number of its earliest equal, or stays and takes the next. It is
// put after the rows that stay, where it is overwritten if it does not. How many rows stay.
fn step(
    schema: &[i32],
    s: usize,
    proof: &[i32],
    k: usize,
    count: usize,
    out: &mut [i32],
    numbers: &mut [u32],
    next: &mut [u16],
    heads: &mut [u16],
) -> usize
    requires k_bound { (s + k < 2049) × (count ≤ k) × (4 * k + 3 < length out.old) × (k < length numbers.old) × (2049 ≤ length next.old) × (1024 ≤ length heads.old) }
    requires folds { Folds schema.now s (folding schema.now s proof.now k) count out.old numbers.old next.old heads.old }
    ensures { Folds schema.now s (folding schema.now s proof.now (k + 1)) result out.new numbers.new next.new heads.new }
{
    row::put(proof, k, s, numbers, out, count);
    let r = s + count;
    let h = places::place(cells::of_row(schema, s, out, r));
    let q = links::first(schema, s, out, r, h, next, heads);
    numbers[k] = q as u32;
    if q < r {
        return count;
    }
    places::keep(r, h, next, heads);
    count + 1
}

// Each of p proof rows, where the schema rows are linked.
fn each(
    schema: &[i32],
    s: usize,
    proof: &[i32],
    p: usize,
    out: &mut [i32],
    numbers: &mut [u32],
    next: &mut [u16],
    heads: &mut [u16],
) -> usize
    requires p_bound { (s + p ≤ 2049) × (4 * p ≤ length out.old) × (p ≤ length numbers.old) × (2049 ≤ length next.old) × (1024 ≤ length heads.old) }
    requires folds { Folds schema.now s (folding schema.now s proof.now 0) 0 out.old numbers.old next.old heads.old }
    ensures { Folds schema.now s (folding schema.now s proof.now p) result out.new numbers.new next.new heads.new }
{
    let mut count = 0;
    for k in 0..p {
        count = step(schema, s, proof, k, count, out, numbers, next, heads);
    }
    count
}

// The rows of p that stay stand in the result table, and the number of each row is kept in `numbers`, which is lent all 0.
// How many rows stay.
pub fn fold(
    schema: &[i32],
    s: usize,
    proof: &[i32],
    p: usize,
    out: &mut [i32],
    numbers: &mut [u32],
) -> usize
    requires p_bound { (s + p ≤ 2049) × (4 * p ≤ length out.old) × (p ≤ length numbers.old) }
    requires numbers_value { numbers.old ≡ replicate (length numbers.old) 0 }
    ensures value { result ≡ (folding schema.now s proof.now p).count }
    ensures out_after { out.new ≡ padded (pos 0) (length out.old) (folding schema.now s proof.now p).table }
    ensures numbers_after { (numbers.new ≡ padded 0 (length numbers.old) (folding schema.now s proof.now p).numbers) × AllSmall numbers.new }
{
    let mut next = [0u16; 2049];
    let mut heads = [0u16; 1024];
    links::schema_rows(schema, s, out, &mut next, &mut heads);
    let count = each(schema, s, proof, p, out, numbers, &mut next, &mut heads);
    signed::clear(out, 4 * count);
    count
}
