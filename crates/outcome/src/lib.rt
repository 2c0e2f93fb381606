// What the two texts of a record come to: each is read into tables, the schema first, and what was read is checked.
#![tactic(auto)]

ghost use Rattle.std.specs.Prelude.{◌≡◌};
ghost use Rattle.stab.specs.Read.{read_proof, read_model};
ghost use Rattle.outcome.specs.Outcomes.{verdict_of, check_outcome, check_after, model_outcome, model_after};

use stab::{Header, Refused, SchemaHeader, Verdict};
use text::read;

// The first text or the second is refused in reading; or both are read, and the verdict stands beside the counts of their formula rows.
#[derive(Clone, Copy)]
pub enum Outcome {
    First(Refused),
    Second(Refused),
    Judged {
        verdict: Verdict,
        schema_rows: usize,
        proof_rows: usize,
    },
}

// The verdict, a refusal in reading being one.
pub fn verdict(o: Outcome) -> Verdict
    ensures { result ≡ verdict_of o }
{
    match o {
        Outcome::First(refused) => Err(refused),
        Outcome::Second(refused) => Err(refused),
        Outcome::Judged {
            verdict: v,
            schema_rows: _,
            proof_rows: _,
        } => v,
    }
}

// A proof text, after a schema text whose rows stand in a table; of an older record or not.
fn check_after(older: bool, table: &[i32], h: SchemaHeader, proof: &[u8]) -> Outcome
    ensures { result ≡ check_after older (read_proof 4096 9216 8192 proof.now) table.now h }
{
    let mut more = [0i32; 4096];
    let mut nodes = [0i32; 9216];
    let mut members = [0i32; 8192];
    match read::read_proof(proof, &mut more, &mut nodes, &mut members) {
        Ok(counts) => Outcome::Judged {
            verdict: tableau::check::check_as(
                older,
                table,
                &more,
                &nodes,
                &members,
                Header {
                    schema_rows: h.rows,
                    proof_rows: counts.rows,
                    root: h.root,
                    least: h.least,
                    node_rows: counts.nodes,
                    member_count: counts.members,
                },
            ),
            schema_rows: h.rows,
            proof_rows: counts.rows,
        },
        Err(refused) => Outcome::Second(refused),
    }
}

// A schema text and a proof text.
pub fn check_outcome(older: bool, schema: &[u8], proof: &[u8]) -> Outcome
    ensures { result ≡ check_outcome older schema.now proof.now }
{
    let mut table = [0i32; 4096];
    match read::read_schema(schema, &mut table) {
        Ok(h) => check_after(older, &table, h, proof),
        Err(refused) => Outcome::First(refused),
    }
}

// A model text, after a schema text whose rows stand in a table.
fn model_after(table: &[i32], h: SchemaHeader, model: &[u8]) -> Outcome
    ensures { result ≡ model_after (read_model 8192 model.now) table.now h }
{
    let mut pairs = [0i32; 8192];
    match read::read_model(model, &mut pairs) {
        Ok(m) => Outcome::Judged {
            verdict: model::check_model(table, h, m.n, &pairs, m.pairs),
            schema_rows: h.rows,
            proof_rows: 0,
        },
        Err(refusal) => Outcome::Second(refusal),
    }
}

// A schema text and a model text.
pub fn model_outcome(schema: &[u8], model: &[u8]) -> Outcome
    ensures { result ≡ model_outcome schema.now model.now }
{
    let mut table = [0i32; 4096];
    match read::read_schema(schema, &mut table) {
        Ok(h) => model_after(&table, h, model),
        Err(refused) => Outcome::First(refused),
    }
}
