// A failing width, shown: the first assignment that makes a schema true at n.
#![tactic(auto)]

ghost use Rattle.std.specs.Prelude.{◌≡◌, ◌+◌, ◌*◌, ◌<◌, ◌≤◌, pos, length, take, get_or, if◌then◌else◌};
ghost use Rattle.stab.specs.Lent.{lent_schema};
ghost use Rattle.stab.specs.Occurs.{table as wireTable};
ghost use Rattle.stab.specs.Text.{padded};
ghost use Rattle.stab.specs.Finding.{no_refusal};
ghost use Rattle.pairs.specs.Index.{unbiased};
ghost use Rattle.found.specs.Find.{find, model_or, model_pairs, found_table};
ghost use Rattle.found.specs.Number.{numbered};
ghost use Rattle.assigned.specs.Assignments.{Searchable};
ghost use Rattle.find.specs.Search.{tables_refusal, query_refusal, Ready, search_answer, search_table, first_at, wire_of, wires_of, pair_put, is_true};

use formula_pass::schema_formulas;
use stab::{ModelHeader, Refusal, Refused, SchemaHeader};

// ---- before the search

// Refusals 2 and 5.
fn tables_pass(room: usize, schema: &[i32], schema_rows: usize) -> Result<(), Refused>
    ensures { result ≡ tables_refusal room schema.now schema_rows }
{
    if room < 8192 {
        return Err(Refusal::TableTooShort.at(0));
    }
    if !signed::holds(schema, 4, schema_rows) {
        return Err(Refusal::TableTooShort.whole());
    }
    if 1024 < schema_rows {
        return Err(Refusal::TooMany.whole());
    }
    Ok(())
}

// What is found before the pairs are counted; the numbers of the schema's rows are kept.
fn query_pass(
    schema: &[i32],
    h: SchemaHeader,
    n: i32,
    room: usize,
    facts: &mut [u32],
) -> Result<(), Refused>
    requires { 4096 ≤ length facts.old }
    ensures value { result ≡ query_refusal (record { schema = lent_schema schema.entry.now h; n = n; room = room }) }
    ensures ready { result ≡ no_refusal → Ready (record { schema = lent_schema schema.entry.now h; n = n; room = room }) facts.new }
{
    tables_pass(room, schema, h.rows)?;
    schema_formulas(schema, h, facts)?;
    if model::width_fits(h.least, n) {
        return Ok(());
    }
    Err(Refusal::Width.whole())
}

// ---- the pairs of an assignment

// What x stands for.
fn index_of(x: usize) -> i32
    requires { x < 131072 }
    ensures { result ≡ unbiased x }
{
    if x < 65536 {
        return signed::with_sign(65536 - x, true);
    }
    signed::with_sign(x - 65536, false)
}

// The pair of a key is put in the table at place k.
fn put_pair(pairs: &mut [i32], k: usize, key: u32)
    requires { 2 * k + 1 < length pairs.old }
    ensures { pairs.new ≡ pair_put pairs.old k (wire_of key) }
{
    let key = key as usize;
    pairs[2 * k] = signed::of(key / 131072);
    pairs[2 * k + 1] = index_of(key % 131072);
}

// Pair k is put in the table after those that are given, where assignment number m makes it true: the first pair's digit is the
// most significant.
fn put_true(
    pairs: &mut [i32],
    given: usize,
    keys: &[u32],
    count: usize,
    k: usize,
    m: usize,
) -> usize
    requires { (k < count) × (count ≤ 16) × (count ≤ length keys.now) × (2 * given + 1 < length pairs.old) }
    ensures { (result ≡ (if is_true m count k then given + 1 else given)) × (pairs.new ≡ (if is_true m count k then pair_put pairs.old given (wire_of (get_or keys.now k 0)) else pairs.old)) }
{
    if (m >> (count - 1 - k)) % 2 == 1 {
        put_pair(pairs, given, keys[k]);
        return given + 1;
    }
    given
}

// The pairs that are true in assignment number m, 0 past them, and how many they are.
fn write_pairs(pairs: &mut [i32], keys: &[u32], count: usize, m: usize) -> usize
    requires { (count ≤ 16) × (count ≤ length keys.now) × (32 ≤ length pairs.old) }
    ensures { (result ≡ length (numbered (wires_of (take count keys.now)) m)) × (pairs.new ≡ padded (pos 0) (length pairs.old) (wireTable (numbered (wires_of (take count keys.now)) m))) }
{
    let mut given = 0;
    for k in 0..count {
        given = put_true(pairs, given, keys, count, k, m);
    }
    signed::clear(pairs, 2 * given);
    given
}

// ---- the search

// The first model at n, given to a query whose pairs have these keys, and its pairs in the lent table.
fn shown(
    schema: &[i32],
    facts: &[u32],
    root: usize,
    width: usize,
    keys: &[u32],
    count: usize,
    n: i32,
    pairs: &mut [i32],
) -> Result<Option<ModelHeader>, Refused>
    requires { Searchable schema.now facts.now root width keys.now count × (count ≤ length keys.now) × (32 ≤ length pairs.old) }
    ensures value { result ≡ model_or n (first_at schema.now root width) }
    ensures pairs_after { pairs.new ≡ padded (pos 0) (length pairs.old) (wireTable (model_pairs (first_at schema.now root width))) }
{
    let m = assigned::first_number(schema, facts, root, width, keys, count);
    if m == 1usize << count {
        signed::clear(pairs, 0);
        return Ok(None);
    }
    let given = write_pairs(pairs, keys, count, m);
    Ok(Some(ModelHeader { n, pairs: given }))
}

// The answer for a query that has passed so far, and the lent table.
fn searched(
    schema: &[i32],
    h: SchemaHeader,
    n: i32,
    facts: &[u32],
    table: &mut [i32],
) -> Result<Option<ModelHeader>, Refused>
    requires { Ready (record { schema = lent_schema schema.now h; n = n; room = length table.old }) facts.now }
    ensures value { result ≡ search_answer (record { schema = lent_schema schema.entry.now h; n = n; room = length table.old }) }
    ensures table_after { table.new ≡ search_table (record { schema = lent_schema schema.entry.now h; n = n; room = length table.old }) }
{
    let row = signed::natural(h.root);
    let width = signed::natural(n);
    let mut keys = [0u32; 17];
    let count = occurring::occurring(schema, facts, row, width, &mut keys);
    if 16 < count {
        signed::clear(table, 0);
        return Err(Refusal::Wires.whole());
    }
    shown(schema, facts, row, width, &keys, count, n, table)
}

// The first model of a schema at n, its true pairs in the lent table.
pub fn find_model(
    schema: &[i32],
    h: SchemaHeader,
    n: i32,
    pairs: &mut [i32],
) -> Result<Option<ModelHeader>, Refused>
    ensures value { result ≡ find (record { schema = lent_schema schema.entry.now h; n = n; room = length pairs.old }) }
    ensures pairs_after { pairs.new ≡ found_table (record { schema = lent_schema schema.entry.now h; n = n; room = length pairs.old }) }
{
    let mut facts = [0u32; 4096];
    match query_pass(schema, h, n, pairs.len(), &mut facts) {
        Err(refused) => {
            signed::clear(pairs, 0);
            Err(refused)
        }
        Ok(()) => searched(schema, h, n, &facts, pairs),
    }
}
