// The pass over formula rows: the root and the least value, then each row, then the root again.
#![tactic(auto)]

ghost use Rattle.std.specs.Prelude.{◌≡◌, true, false, ℕ, ◌+◌, ◌*◌, ◌<◌, ◌≤◌, length, get_or};
ghost use Rattle.stab.specs.Basic.{scan};
ghost use Rattle.stab.specs.Formula.{row_at, formula_rows, tree};
ghost use Rattle.stab.specs.Lent.{lent_schema};
ghost use Rattle.stab.specs.Check.{row_refusal, formula_refusal, formulas_refusal, schema_refusal};
ghost use Rattle.stab.specs.Finding.{no_refusal};
ghost use Rattle.formula.specs.Rows.{facts_of, kept_if, facts_table, formulas_table, Passed};
ghost use Rattle.repeats.specs.Places.{Linked};

use formula::rows;
use repeats::repeats;
use stab::{Header, Refusal, Refused, SchemaHeader};

// What is found of row r: 7, 8 and, unless rows may repeat, 27. Where that is nothing, its numbers are kept, and the row is the last of its
// place.
fn row(
    older: bool,
    schema: &[i32],
    s: usize,
    proof: &[i32],
    r: usize,
    facts: &mut [u32],
    next: &mut [u16],
    heads: &mut [u16],
) -> Result<(), Refused>
    requires r_bound { (r < 1024) × (4 * r + 3 < length facts.old) × (older ≡ false → (r < length next.old) × (1024 ≤ length heads.old)) }
    requires passed { Passed (formula_rows schema.now s proof.now) facts.old r }
    requires linked { older ≡ false → Linked (formula_rows schema.now s proof.now) next.old heads.old r }
    ensures value { result ≡ formula_refusal older (formula_rows schema.now s proof.now) s r }
    ensures passed_2 { result ≡ no_refusal → Passed (formula_rows schema.now s proof.now) facts.new (r + 1) }
    ensures linked_2 { result ≡ no_refusal → older ≡ false → Linked (formula_rows schema.now s proof.now) next.new heads.new (r + 1) }
    ensures facts_after { facts.new ≡ kept_if (row_refusal (formula_rows schema.now s proof.now) r) facts.old r (facts_of (tree (formula_rows schema.now s proof.now) r)) }
{
    rows::step(schema, s, proof, r, facts)?;
    if older {
        return Ok(());
    }
    if repeats(schema, s, proof, s, r, next, heads) {
        return Err(Refusal::Repeated.at(r));
    }
    Ok(())
}

// What is found first among n rows. The table holds the numbers of each before it.
fn each(
    older: bool,
    schema: &[i32],
    s: usize,
    proof: &[i32],
    n: usize,
    facts: &mut [u32],
    next: &mut [u16],
    heads: &mut [u16],
) -> Result<(), Refused>
    requires n_bound { (n ≤ 1024) × (4 * n ≤ length facts.old) × (older ≡ false → (n ≤ length next.old) × (1024 ≤ length heads.old)) }
    requires h_value { older ≡ false → (h : ℕ) → h < 1024 → get_or heads.old h 0 ≡ 0 }
    ensures value { result ≡ scan (formula_refusal older (formula_rows schema.now s proof.now) s) n }
    ensures passed { scan (formula_refusal older (formula_rows schema.now s proof.now) s) n ≡ no_refusal → Passed (formula_rows schema.now s proof.now) facts.new n }
    ensures facts_after { facts.new ≡ facts_table older (formula_rows schema.now s proof.now) s facts.old n }
{
    for r in 0..n {
        row(older, schema, s, proof, r, facts, next, heads)?;
    }
    Ok(())
}

// The same; rows that may not repeat are looked up in tables of their own.
fn all(
    older: bool,
    schema: &[i32],
    s: usize,
    proof: &[i32],
    n: usize,
    facts: &mut [u32],
) -> Result<(), Refused>
    requires { (n ≤ 1024) × (4 * n ≤ length facts.old) }
    ensures value { result ≡ scan (formula_refusal older (formula_rows schema.now s proof.now) s) n }
    ensures passed { scan (formula_refusal older (formula_rows schema.now s proof.now) s) n ≡ no_refusal → Passed (formula_rows schema.now s proof.now) facts.new n }
    ensures facts_after { facts.new ≡ facts_table older (formula_rows schema.now s proof.now) s facts.old n }
{
    if older {
        let mut next = [0u16; 1];
        let mut heads = [0u16; 1];
        return each(older, schema, s, proof, n, facts, &mut next, &mut heads);
    }
    let mut next = [0u16; 1024];
    let mut heads = [0u16; 1024];
    each(older, schema, s, proof, n, facts, &mut next, &mut heads)
}

// What is found of n rows, of which s are schema rows.
fn pass(
    older: bool,
    schema: &[i32],
    s: usize,
    proof: &[i32],
    n: usize,
    root: i32,
    least: i32,
    facts: &mut [u32],
) -> Result<(), Refused>
    requires { (s ≤ n) × (n ≤ 1024) × (4 * n ≤ length facts.old) }
    ensures value { result ≡ formulas_refusal older (formula_rows schema.now s proof.now) n s root least }
    ensures passed { formulas_refusal older (formula_rows schema.now s proof.now) n s root least ≡ no_refusal → Passed (formula_rows schema.now s proof.now) facts.new n }
    ensures facts_after { facts.new ≡ formulas_table older (formula_rows schema.now s proof.now) facts.old n s root least }
{
    if !rows::root_fits(s, root, least) {
        return Err(Refusal::Root.whole());
    }
    all(older, schema, s, proof, n, facts)?;
    let f = rows::known(facts, signed::natural(root));
    if f.loose == 0 {
        return Ok(());
    }
    Err(Refusal::Root.whole())
}

// How many formula rows a record has.
pub fn row_count(h: Header) -> usize
    requires { h.schema_rows + h.proof_rows ≤ 1024 }
    ensures { result ≡ h.schema_rows + h.proof_rows }
{
    h.schema_rows + h.proof_rows
}

// What is found of a record's formulas. The table holds the numbers of each row up to the first that is refused.
pub fn formulas(
    older: bool,
    schema: &[i32],
    proof: &[i32],
    h: Header,
    facts: &mut [u32],
) -> Result<(), Refused>
    requires { (h.schema_rows + h.proof_rows ≤ 1024) × (4 * (h.schema_rows + h.proof_rows) ≤ length facts.old) }
    ensures value { result ≡ formulas_refusal older (formula_rows schema.now h.schema_rows proof.now) (h.schema_rows + h.proof_rows) h.schema_rows h.root h.least }
    ensures passed { result ≡ no_refusal → Passed (formula_rows schema.now h.schema_rows proof.now) facts.new (h.schema_rows + h.proof_rows) }
    ensures facts_after { facts.new ≡ formulas_table older (formula_rows schema.now h.schema_rows proof.now) facts.old (h.schema_rows + h.proof_rows) h.schema_rows h.root h.least }
{
    pass(
        older,
        schema,
        h.schema_rows,
        proof,
        row_count(h),
        h.root,
        h.least,
        facts,
    )
}

// What is found of a schema's rows, which may repeat. The rest of its table stands where a proof's rows would.
fn alone(schema: &[i32], s: usize, root: i32, least: i32, facts: &mut [u32]) -> Result<(), Refused>
    requires { (s ≤ 1024) × (4 * s ≤ length schema.now) × (4 * s ≤ length facts.old) }
    ensures value { result ≡ formulas_refusal true (row_at schema.now) s s root least }
    ensures passed { formulas_refusal true (row_at schema.now) s s root least ≡ no_refusal → Passed (row_at schema.now) facts.new s }
    ensures facts_after { facts.new ≡ formulas_table true (row_at schema.now) facts.old s s root least }
{
    let end = 4 * s;
    pass(true, schema, s, &schema[end..], s, root, least, facts)
}

// The same of a lent schema.
pub fn schema_formulas(schema: &[i32], h: SchemaHeader, facts: &mut [u32]) -> Result<(), Refused>
    requires { (h.rows ≤ 1024) × (4 * h.rows ≤ length schema.now) × (4 * h.rows ≤ length facts.old) }
    ensures value { result ≡ schema_refusal (lent_schema schema.now h) }
    ensures passed { schema_refusal (lent_schema schema.now h) ≡ no_refusal → Passed (row_at schema.now) facts.new h.rows }
    ensures facts_after { facts.new ≡ formulas_table true (row_at schema.now) facts.old h.rows h.rows h.root h.least }
{
    alone(schema, h.rows, h.root, h.least, facts)
}
