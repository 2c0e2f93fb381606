// The entries that provers call, from Rust and C: numbers and slices in, one number back.
#![tactic(auto)]

pub mod both_texts;
pub mod enquirer;
pub mod failing;
pub mod grower;
pub mod joiner;
pub mod successor;
pub mod texts;
pub mod tidier;
pub mod wider;

ghost use Rattle.std.specs.Prelude.{◌≡◌};
ghost use Rattle.stab.specs.Check.{check, check_older};
ghost use Rattle.stab.specs.Model.{check_model};
ghost use Rattle.stab.specs.Answer.{packed};
ghost use Rattle.stab.specs.Lent.{lent, lent_schema, header, schema_header};
ghost use Rattle.told.specs.Demands.{CheckSays, OlderSays, ModelSays};

use stab::{Header, SchemaHeader};

// The check. The number's answer is 0 exactly when the tableau keeps the rules; then its counts are those of the rows, the schema is
// false at every natural n from its least value up, under every assignment, and no model of it is accepted.
#[unsafe(no_mangle)]
pub extern "C" fn zorambi_check(
    schema: &[i32],
    schema_rows: usize,
    proof: &[i32],
    proof_rows: usize,
    root: i32,
    least: i32,
    nodes: &[i32],
    node_rows: usize,
    members: &[i32],
    member_count: usize,
) -> u64
    ensures value { result ≡ packed (check (lent schema.now proof.now nodes.now members.now (header schema_rows proof_rows root least node_rows member_count))) }
    ensures check_says { CheckSays (lent schema.now proof.now nodes.now members.now (header schema_rows proof_rows root least node_rows member_count)) result }
{
    let h = Header {
        schema_rows,
        proof_rows,
        root,
        least,
        node_rows,
        member_count,
    };
    answer::pack(tableau::check::check(schema, proof, nodes, members, h))
}

// The check of an older record, whose proof rows may repeat. An answer of 0 says of the schema what the check's does.
#[unsafe(no_mangle)]
pub extern "C" fn zorambi_check_older(
    schema: &[i32],
    schema_rows: usize,
    proof: &[i32],
    proof_rows: usize,
    root: i32,
    least: i32,
    nodes: &[i32],
    node_rows: usize,
    members: &[i32],
    member_count: usize,
) -> u64
    ensures value { result ≡ packed (check_older (lent schema.now proof.now nodes.now members.now (header schema_rows proof_rows root least node_rows member_count))) }
    ensures older_says { OlderSays (lent schema.now proof.now nodes.now members.now (header schema_rows proof_rows root least node_rows member_count)) result }
{
    let h = Header {
        schema_rows,
        proof_rows,
        root,
        least,
        node_rows,
        member_count,
    };
    answer::pack(tableau::check::check_as(true, schema, proof, nodes, members, h))
}

// The model check. The number's answer is 0 exactly when the model is right; then no tableau of the same schema rows, root and least
// value is accepted, by the check or by the older one.
#[unsafe(no_mangle)]
pub extern "C" fn zorambi_check_model(
    schema: &[i32],
    schema_rows: usize,
    root: i32,
    least: i32,
    n: i32,
    pairs: &[i32],
    pair_rows: usize,
) -> u64
    ensures value { result ≡ packed (check_model (record { schema = lent_schema schema.entry.now (schema_header schema_rows root least); n = n; pairs = pairs.now; pair_rows = pair_rows })) }
    ensures model_says { ModelSays (record { schema = lent_schema schema.entry.now (schema_header schema_rows root least); n = n; pairs = pairs.now; pair_rows = pair_rows }) result }
{
    let h = SchemaHeader {
        rows: schema_rows,
        root,
        least,
    };
    answer::pack(model::check_model(schema, h, n, pairs, pair_rows))
}
