// The entry that shows a failing width: one number back as from the check, and the model in lent results.
ghost use Rattle.std.specs.Prelude.{◌≡◌, length};
ghost use Rattle.stab.specs.Lent.{lent_schema, schema_header};
ghost use Rattle.found.specs.Find.{find, found_packed, found_results, found_table};

use stab::SchemaHeader;

// The first model of a schema at n is put in the table of pairs; the results are n and the number of pairs. In the number the count
// of nodes is 1 where a model is given, and 0 for none.
#[unsafe(no_mangle)]
pub extern "C" fn zorambi_find_model(
    schema: &[i32],
    schema_rows: usize,
    root: i32,
    least: i32,
    n: i32,
    pairs: &mut [i32],
    results: &mut [i32; 2],
) -> u64
    ensures answer { result ≡ found_packed (find (record { schema = lent_schema schema.entry.now (schema_header schema_rows root least); n = n; room = length pairs.old })) }
    ensures results { results.new ≡ found_results (find (record { schema = lent_schema schema.entry.now (schema_header schema_rows root least); n = n; room = length pairs.old })) }
    ensures pairs { pairs.new ≡ found_table (record { schema = lent_schema schema.entry.now (schema_header schema_rows root least); n = n; room = length pairs.old }) }
{
    let h = SchemaHeader {
        rows: schema_rows,
        root,
        least,
    };
    told::first_model(find::find_model(schema, h, n, pairs), results)
}
