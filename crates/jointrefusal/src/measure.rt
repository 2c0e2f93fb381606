// How much there is of two records, and how large the or of their roots is.
ghost use Rattle.std.specs.Prelude.{◌≡◌, [], ◌*◌, ◌≤◌, max, length};
ghost use Rattle.stab.specs.Formula as F;
ghost use Rattle.stab.specs.Formula.{schema_formula};
ghost use Rattle.stab.specs.Node.{schema_of};
ghost use Rattle.stab.specs.Lent.{lent, lent_schema, schema_header};
ghost use Rattle.stab.specs.Check.{schema_refusal};
ghost use Rattle.stab.specs.Finding.{no_refusal};
ghost use Rattle.jointrefusal.specs.Before.{or_small, sizes_fit};

use formula::rows::{Facts, known};
use formula_pass::schema_formulas;
use stab::{Header, SchemaHeader};

fn larger(a: u32, b: u32) -> u32
    ensures { result ≡ max a b }
{
    if a < b { b } else { a }
}

// The numbers of the root, where the schema rows are well formed and small.
fn root_facts(schema: &[i32], h: SchemaHeader) -> Facts
    requires rows_bound { (h.rows ≤ 1024) × (4 * h.rows ≤ length schema.now) }
    requires h_value { schema_refusal (lent_schema schema.now h) ≡ no_refusal }
    ensures size_value { result.size ≡ F.size (schema_formula (lent_schema schema.now h)) }
    ensures depth_value { result.depth ≡ F.depth (schema_formula (lent_schema schema.now h)) }
    ensures size_bound { (result.size ≤ 4096) × (result.depth ≤ 64) }
{
    let mut facts = [0u32; 4096];
    let _ = schema_formulas(schema, h, &mut facts);
    known(&facts, signed::natural(h.root))
}

// The or of two roots is small enough.
fn or_fits(
    first_schema: &[i32],
    first: SchemaHeader,
    second_schema: &[i32],
    second: SchemaHeader,
) -> bool
    requires rows_bound { (first.rows ≤ 1024) × (4 * first.rows ≤ length first_schema.now) }
    requires rows_bound_2 { (second.rows ≤ 1024) × (4 * second.rows ≤ length second_schema.now) }
    requires first_value { schema_refusal (lent_schema first_schema.now first) ≡ no_refusal }
    requires second_value { schema_refusal (lent_schema second_schema.now second) ≡ no_refusal }
    ensures { result ≡ or_small (schema_formula (lent_schema first_schema.now first)) (schema_formula (lent_schema second_schema.now second)) }
{
    let f = root_facts(first_schema, first);
    let g = root_facts(second_schema, second);
    if 4096 < 1 + f.size + g.size {
        return false;
    }
    1 + larger(f.depth, g.depth) <= 64
}

// The header of a record's schema.
fn schema_header(h: Header) -> SchemaHeader
    ensures { result ≡ schema_header h.schema_rows h.root h.least }
{
    SchemaHeader {
        rows: h.schema_rows,
        root: h.root,
        least: h.least,
    }
}

// Two records have few enough schema rows and nodes, and their or is small enough.
pub fn both_fit(first_schema: &[i32], first: Header, second_schema: &[i32], second: Header) -> bool
    requires schema_rows_bound { (first.schema_rows ≤ 1024) × (first.node_rows ≤ 1024) × (4 * first.schema_rows ≤ length first_schema.now) }
    requires schema_rows_bound_2 { (second.schema_rows ≤ 1024) × (second.node_rows ≤ 1024) × (4 * second.schema_rows ≤ length second_schema.now) }
    requires first_value { schema_refusal (schema_of (lent first_schema.now [] [] [] first)) ≡ no_refusal }
    requires second_value { schema_refusal (schema_of (lent second_schema.now [] [] [] second)) ≡ no_refusal }
    ensures { result ≡ sizes_fit (lent first_schema.now [] [] [] first) (lent second_schema.now [] [] [] second) }
{
    if 1024 <= first.schema_rows + second.schema_rows {
        return false;
    }
    if 1024 <= first.node_rows + second.node_rows {
        return false;
    }
    or_fits(
        first_schema,
        schema_header(first),
        second_schema,
        schema_header(second),
    )
}
