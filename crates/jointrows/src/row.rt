// The formula rows of two records, one after another.
ghost use Rattle.std.specs.Prelude.{◌≡◌, [], ◌++◌, ◌+◌, ◌*◌, ◌<◌, ◌≤◌, leb, pos, length, take, replicate, if◌then◌else◌};
ghost use Rattle.stab.specs.Text.{padded};
ghost use Rattle.tidied.specs.Tidied.{new_number, folding};
ghost use Rattle.folds.specs.Folds.{AllSmall};
ghost use Rattle.joint.specs.Joint.{moved_rows};
ghost use Rattle.jointrows.specs.Kept.{both_schemata, both_proofs};

use folds::number::through;
use tidy::node::copy;

// n rows go to a table from row `at` on, their parts under new numbers.
fn put_rows(rows: &[i32], n: usize, numbers: &[u32], table: &mut [i32], at: usize)
    requires { (n ≤ 1024) × (at ≤ 1024) × (4 * (at + n) ≤ length table.old) × AllSmall numbers.now }
    ensures { take (4 * (at + n)) table.new ≡ take (4 * at) table.old ++ moved_rows (new_number 0 numbers.now) rows.now n }
{
    for k in 0..n {
        folds::row::put(rows, k, 0, numbers, table, at + k);
    }
}

// The schema rows of both, and the or of their roots.
pub fn put_schema(
    first: &[i32],
    first_rows: usize,
    first_root: i32,
    first_numbers: &[u32],
    second: &[i32],
    second_rows: usize,
    second_root: i32,
    second_numbers: &[u32],
    table: &mut [i32],
)
    requires { (first_rows + second_rows < 1024) × (4096 ≤ length table.old) × AllSmall first_numbers.now × AllSmall second_numbers.now }
    ensures { table.new ≡ padded (pos 0) (length table.old) (both_schemata (new_number 0 first_numbers.now) first.now first_rows first_root (new_number 0 second_numbers.now) second.now second_rows second_root) }
{
    put_rows(first, first_rows, first_numbers, table, 0);
    put_rows(second, second_rows, second_numbers, table, first_rows);
    let row = [
        5,
        through(first_numbers, 0, first_root),
        through(second_numbers, 0, second_root),
        0,
    ];
    let at = 4 * (first_rows + second_rows);
    copy(table, at, &row);
    signed::clear(table, at + 4);
}

// The proof rows of both, folded against s schema rows: those that stay, or none where they are too many, and the number of each. How many
// stay.
pub fn fold_rows(
    schema: &[i32],
    s: usize,
    first: &[i32],
    first_rows: usize,
    first_numbers: &[u32],
    second: &[i32],
    second_rows: usize,
    second_numbers: &[u32],
    numbers: &mut [u32],
    out: &mut [i32],
) -> usize
    requires first_rows_bound { (first_rows ≤ 1023) × (second_rows ≤ 1023) × (s + (first_rows + second_rows) ≤ 2049) × (4096 ≤ length out.old) × (length numbers.old ≡ 2049) × AllSmall first_numbers.now × AllSmall second_numbers.now }
    requires numbers_value { numbers.old ≡ replicate (length numbers.old) 0 }
    ensures value { result ≡ (folding schema.now s (both_proofs (new_number 0 first_numbers.now) first.now first_rows (new_number 0 second_numbers.now) second.now second_rows) (first_rows + second_rows)).count }
    ensures out_after { out.new ≡ padded (pos 0) (length out.old) (if leb (s + result) 1024 then (folding schema.now s (both_proofs (new_number 0 first_numbers.now) first.now first_rows (new_number 0 second_numbers.now) second.now second_rows) (first_rows + second_rows)).table else []) }
    ensures numbers_after { (numbers.new ≡ padded 0 (length numbers.old) (folding schema.now s (both_proofs (new_number 0 first_numbers.now) first.now first_rows (new_number 0 second_numbers.now) second.now second_rows) (first_rows + second_rows)).numbers) × AllSmall numbers.new }
{
    let mut proof = [0i32; 8192];
    put_rows(first, first_rows, first_numbers, &mut proof, 0);
    put_rows(second, second_rows, second_numbers, &mut proof, first_rows);
    let mut stay = [0i32; 8192];
    let count = folds::fold(
        schema,
        s,
        &proof,
        first_rows + second_rows,
        &mut stay,
        numbers,
    );
    if s + count <= 1024 {
        let end = 4 * count;
        copy(out, 0, &stay[..end]);
        signed::clear(out, end);
    } else {
        signed::clear(out, 0);
    }
    count
}
