// The formula rows of two records as those of one: the schema rows of both and the or of their roots, and the proof rows of both, tidied.
#![tactic(auto)]

mod number;
mod row;

ghost use Rattle.std.specs.Prelude.{◌≡◌, ◌+◌, ◌<◌, ◌≤◌, length, []};
ghost use Rattle.stab.specs.Lent.{lent};
ghost use Rattle.jointrows.specs.Kept.{Joinable, RowsFilled};

use stab::Header;

// The formula rows of both, tidied, and the new number of each. How many proof rows stay; where they are too many, none is put. Until they
// are folded every row has the number of its place, which is below 4,097.
pub fn fill_rows(
    first_schema: &[i32],
    first_proof: &[i32],
    first: Header,
    second_schema: &[i32],
    second_proof: &[i32],
    second: Header,
    first_numbers: &mut [u32],
    second_numbers: &mut [u32],
    out_schema: &mut [i32],
    out_proof: &mut [i32],
) -> usize
    requires joinable { Joinable (lent first_schema.now first_proof.now [] [] first) × Joinable (lent second_schema.now second_proof.now [] [] second) × (first.schema_rows + second.schema_rows < 1024) }
    requires first_numbers_len { (length first_numbers.old ≡ 1024) × (length second_numbers.old ≡ 1024) × (4096 ≤ length out_schema.old) × (4096 ≤ length out_proof.old) }
    ensures { RowsFilled (lent first_schema.now first_proof.now [] [] first) (lent second_schema.now second_proof.now [] [] second) out_schema.old out_proof.old result first_numbers.new second_numbers.new out_schema.new out_proof.new }
{
    let s = first.schema_rows + second.schema_rows + 1;
    let after = s + first.proof_rows;
    let mut numbers = [0u32; 2049];
    number::fill(first.schema_rows, 0, s, &numbers, 4097, first_numbers);
    number::fill(
        second.schema_rows,
        first.schema_rows,
        after,
        &numbers,
        4097,
        second_numbers,
    );
    row::put_schema(
        first_schema,
        first.schema_rows,
        first.root,
        first_numbers,
        second_schema,
        second.schema_rows,
        second.root,
        second_numbers,
        out_schema,
    );
    let count = row::fold_rows(
        out_schema,
        s,
        first_proof,
        first.proof_rows,
        first_numbers,
        second_proof,
        second.proof_rows,
        second_numbers,
        &mut numbers,
        out_proof,
    );
    number::fill(first.schema_rows, 0, s, &numbers, s, first_numbers);
    number::fill(
        second.schema_rows,
        first.schema_rows,
        after,
        &numbers,
        s,
        second_numbers,
    );
    count
}
