// The pass over wide rows: which are well formed and small enough. The numbers worked out for a row, and the table that keeps them,
// are those of the pass over 01's rows.
#![tactic(auto)]

ghost use Rattle.std.specs.Prelude.{◌≡◌, ◌+◌, ◌*◌, ◌<◌, ◌≤◌, length, pos};
ghost use Rattle.stab.specs.Basic.{scan};
ghost use Rattle.stab.specs.Formula.{formula_rows};
ghost use Rattle.stab.specs.Lent.{lent_schema};
ghost use Rattle.stab.specs.Finding.{no_refusal};
ghost use Rattle.wide.specs.WideFormula.{wide_kind_of, wide_tree};
ghost use Rattle.wide.specs.Convert.{wide_row_refusal, wide_refusal};
ghost use Rattle.formula.specs.Cells.{row_of};
ghost use Rattle.formula.specs.Rows.{kept_if, Summable};
ghost use Rattle.widerows.specs.WideRows.{wide_facts_of, not_judged, wide_judged, wide_table, wide_rows_table, WidePassed};

use formula::cells;
use formula::cells::Cells;
use formula::rows::{
    Facts, below, constant, iteration, junction, known, literal, part, root_fits, sized,
};
use stab::{Refusal, Refused, SchemaHeader};

// ---- one row

// A number of the same kind as z, 0..11 where the kind is known.
fn kind_of(z: i32) -> usize
    ensures { wide_kind_of (pos result) ≡ wide_kind_of z }
{
    if 0 < signed::under(z) {
        return 12;
    }
    signed::natural(z)
}

// A not: a is a smaller row, b and c are 0.
fn negation(w: Cells, r: usize, facts: &[u32]) -> Option<Facts>
    requires { (r < 1024) × Summable facts.now r }
    ensures { result ≡ not_judged r (row_of w) facts.now }
{
    if !below(r, w.a) {
        return None;
    }
    if !signed::equal(w.b, 0) {
        return None;
    }
    if !signed::equal(w.c, 0) {
        return None;
    }
    let f = part(r, w.a, facts);
    Some(Facts {
        size: 1 + f.size,
        depth: 1 + f.depth,
        loose: f.loose,
        fixed: f.fixed,
    })
}

// Row r, judged by its kind: 9, 10 and 11 have two parts, as 4 and 5 have.
fn row(schema: &[i32], s: usize, proof: &[i32], r: usize, facts: &[u32]) -> Option<Facts>
    requires { (r < 1024) × WidePassed (formula_rows schema.now s proof.now) facts.now r }
    ensures { result ≡ wide_judged (formula_rows schema.now s proof.now) r }
{
    let w = cells::of_row(schema, s, proof, r);
    let k = kind_of(w.kind);
    if k < 2 {
        return constant(w);
    }
    if k < 4 {
        return literal(w);
    }
    if k < 6 {
        return junction(w, r, facts);
    }
    if k < 8 {
        return iteration(w, r, facts);
    }
    if k < 9 {
        return negation(w, r, facts);
    }
    if k < 12 {
        return junction(w, r, facts);
    }
    None
}

// ---- every row

// What is found at row r; its numbers are kept where that is nothing.
fn step(schema: &[i32], s: usize, proof: &[i32], r: usize, facts: &mut [u32]) -> Result<(), Refused>
    requires { (r < 1024) × (4 * r + 3 < length facts.old) × WidePassed (formula_rows schema.now s proof.now) facts.old r }
    ensures value { result ≡ wide_row_refusal (formula_rows schema.now s proof.now) r }
    ensures facts_after { facts.new ≡ kept_if (wide_row_refusal (formula_rows schema.now s proof.now) r) facts.old r (wide_facts_of (wide_tree (formula_rows schema.now s proof.now) r)) }
{
    let found = row(schema, s, proof, r, facts);
    sized(found, r, facts)
}

// What is found first among n rows. The table holds the numbers of each before it.
fn each(schema: &[i32], s: usize, proof: &[i32], n: usize, facts: &mut [u32]) -> Result<(), Refused>
    requires { (n ≤ 1024) × (4 * n ≤ length facts.old) }
    ensures value { result ≡ scan (wide_row_refusal (formula_rows schema.now s proof.now)) n }
    ensures wide_passed { scan (wide_row_refusal (formula_rows schema.now s proof.now)) n ≡ no_refusal → WidePassed (formula_rows schema.now s proof.now) facts.new n }
    ensures facts_after { facts.new ≡ wide_table (formula_rows schema.now s proof.now) facts.old n }
{
    for r in 0..n {
        step(schema, s, proof, r, facts)?;
    }
    Ok(())
}

// What is found of wide rows: the root and the least value, then every row, then that the root is outer. The rest of the table
// stands where a proof's rows would.
pub fn wide_rows(wide: &[i32], h: SchemaHeader, facts: &mut [u32]) -> Result<(), Refused>
    requires { (h.rows ≤ 1024) × (4 * h.rows ≤ length wide.now) × (4 * h.rows ≤ length facts.old) }
    ensures value { result ≡ wide_refusal (lent_schema wide.now h) }
    ensures facts_after { facts.new ≡ wide_rows_table (lent_schema wide.now h) facts.old }
{
    if !root_fits(h.rows, h.root, h.least) {
        return Err(Refusal::Root.whole());
    }
    let n = h.rows;
    let end = 4 * n;
    each(wide, n, &wide[end..], n, facts)?;
    let f = known(facts, signed::natural(h.root));
    if f.loose == 0 {
        return Ok(());
    }
    Err(Refusal::Root.whole())
}
