// The model check.
#![tactic(auto)]

ghost use Rattle.std.specs.Prelude.{◌≡◌, ℕ, ◌*◌, ◌≤◌, pos, length};
ghost use Rattle.std.specs.Int.Signed.{le_z};
ghost use Rattle.stab.specs.Basic.{◌and◌};
ghost use Rattle.stab.specs.Formula.{row_at};
ghost use Rattle.stab.specs.Lent.{lent_schema};
ghost use Rattle.stab.specs.Check.{schema_refusal};
ghost use Rattle.stab.specs.Finding.{no_refusal, accept};
ghost use Rattle.stab.specs.Model.{model_refusal, check_model};
ghost use Rattle.stab.specs.Refuted.{Irrefutable};
ghost use Rattle.formula.specs.Facts.{AllFormed};
ghost use Rattle.model.specs.Passes.{tables_refusal, truth_refusal, RootReadable};

use formula_pass::schema_formulas;
use pairs::pairs_pass;
use stab::{Counts, Refusal, Refused, SchemaHeader, Verdict};
use value::formula_value;

// Refusals 2 and 5.
fn tables_pass(
    schema: &[i32],
    schema_rows: usize,
    pairs: &[i32],
    pair_rows: usize,
) -> Result<(), Refused>
    ensures { result ≡ tables_refusal schema.now schema_rows pairs.now pair_rows }
{
    if !signed::holds(schema, 4, schema_rows) {
        return Err(Refusal::TableTooShort.whole());
    }
    if !signed::holds(pairs, 2, pair_rows) {
        return Err(Refusal::TableTooShort.whole());
    }
    if 1024 < schema_rows {
        return Err(Refusal::TooMany.whole());
    }
    if 4096 < pair_rows {
        return Err(Refusal::TooMany.whole());
    }
    Ok(())
}

// Refusals 6, 7, 8 and 6 again, over the schema rows.
fn formulas_pass(schema: &[i32], h: SchemaHeader) -> Result<(), Refused>
    requires { (h.rows ≤ 1024) × (4 * h.rows ≤ length schema.now) }
    ensures value { result ≡ schema_refusal (lent_schema schema.now h) }
    ensures all_formed { result ≡ no_refusal → AllFormed (row_at schema.now) h.rows }
{
    let mut facts = [0u32; 4096];
    schema_formulas(schema, h, &mut facts)
}

// n is not below the least value, nor over 9999.
pub fn width_fits(least: i32, n: i32) -> bool
    ensures { result ≡ (le_z least n and le_z n (pos 9999)) }
{
    if signed::natural(least) + signed::under(n) <= signed::natural(n) + signed::under(least) {
        return signed::natural(n) <= 9999;
    }
    false
}

// Refusals 19 and 20, for a record that has passed so far.
fn truth_pass(
    schema: &[i32],
    h: SchemaHeader,
    n: i32,
    pairs: &[i32],
    pair_rows: usize,
) -> Result<(), Refused>
    requires { RootReadable (lent_schema schema.now h) pairs.now pair_rows }
    ensures { result ≡ truth_refusal (lent_schema schema.now h) n pairs.now pair_rows }
{
    if !width_fits(h.least, n) {
        return Err(Refusal::Width.whole());
    }
    let f = signed::natural(h.root);
    let m = signed::natural(n);
    if formula_value(schema, f, m, 65536, 1, pairs, pair_rows) != 1 {
        return Err(Refusal::False.whole());
    }
    Ok(())
}

// What is found first in a record.
fn model_pass(
    schema: &[i32],
    h: SchemaHeader,
    n: i32,
    pairs: &[i32],
    pair_rows: usize,
) -> Result<(), Refused>
    ensures { result ≡ model_refusal (record { schema = lent_schema schema.entry.now h; n = n; pairs = pairs.now; pair_rows = pair_rows }) }
{
    tables_pass(schema, h.rows, pairs, pair_rows)?;
    formulas_pass(schema, h)?;
    pairs_pass(pairs, pair_rows)?;
    truth_pass(schema, h, n, pairs, pair_rows)
}

// The model check's answer. Where it accepts, no tableau of the same schema rows, root and least value is accepted.
pub fn check_model(
    schema: &[i32],
    h: SchemaHeader,
    n: i32,
    pairs: &[i32],
    pair_rows: usize,
) -> Verdict
    ensures value { result ≡ check_model (record { schema = lent_schema schema.entry.now h; n = n; pairs = pairs.now; pair_rows = pair_rows }) }
    ensures by_index { (nodes links : ℕ) → result ≡ accept nodes links → Irrefutable (lent_schema schema.now h) }
{
    model_pass(schema, h, n, pairs, pair_rows)?;
    Ok(Counts { nodes: 0, links: 0 })
}
