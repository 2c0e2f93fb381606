// The entries that read and write texts, and find a line: one number back as from the check, and what was read in lent results.
ghost use Rattle.std.specs.Prelude.{◌≡◌, ◌∷◌, [], length};
ghost use Rattle.stab.specs.Read.{read_schema, schema_answer, schema_table, read_proof, read_model, model_answer, pair_table};
ghost use Rattle.stab.specs.Write.{write_schema, write_proof, write_model, written, output};
ghost use Rattle.stab.specs.LineNumber.{line_span};
ghost use Rattle.stab.specs.Entry.{schema_packed, schema_results, model_packed, model_results, written_packed};
ghost use Rattle.zorambi.specs.Given.{ReadGives};

// A schema text is read into the table; the results are root, least and the number of rows.
#[unsafe(no_mangle)]
pub extern "C" fn zorambi_read_schema(text: &[u8], table: &mut [i32], results: &mut [i32; 3]) -> u64
    ensures value { result ≡ schema_packed (schema_answer (read_schema (length table.old) text.now)) }
    ensures results_after { results.new ≡ schema_results (schema_answer (read_schema (length table.old) text.now)) }
    ensures table_after { table.new ≡ schema_table (length table.old) (read_schema (length table.old) text.now) }
{
    told::schema(text::read::read_schema(text, table), results)
}

// A proof text is read into the tables; the results are the numbers of rows, nodes and members.
#[unsafe(no_mangle)]
pub extern "C" fn zorambi_read_proof(
    text: &[u8],
    table: &mut [i32],
    nodes: &mut [i32],
    members: &mut [i32],
    results: &mut [i32; 3],
) -> u64
    ensures { ReadGives (read_proof (length table.old) (length nodes.old) (length members.old) text.now) (length table.old) (length nodes.old) (length members.old) result results.new table.new nodes.new members.new }
{
    told::proof(text::read::read_proof(text, table, nodes, members), results)
}

// A model text is read into the table of pairs; the results are n and the number of pairs.
#[unsafe(no_mangle)]
pub extern "C" fn zorambi_read_model(text: &[u8], pairs: &mut [i32], results: &mut [i32; 2]) -> u64
    ensures value { result ≡ model_packed (model_answer (read_model (length pairs.old) text.now)) }
    ensures results_after { results.new ≡ model_results (model_answer (read_model (length pairs.old) text.now)) }
    ensures pairs_after { pairs.new ≡ pair_table (length pairs.old) (read_model (length pairs.old) text.now) }
{
    told::model(text::read::read_model(text, pairs), results)
}

// A schema's text is written.
#[unsafe(no_mangle)]
pub extern "C" fn zorambi_write_schema(
    table: &[i32],
    rows: usize,
    root: i32,
    least: i32,
    out: &mut [u8],
) -> u64
    ensures value { result ≡ written_packed (written (write_schema table.now rows root least (length out.old))) }
    ensures out_after { out.new ≡ output (length out.old) (write_schema table.now rows root least (length out.old)) }
{
    told::written(writing::write_schema(table, rows, root, least, out))
}

// A proof's text is written.
#[unsafe(no_mangle)]
pub extern "C" fn zorambi_write_proof(
    table: &[i32],
    rows: usize,
    nodes: &[i32],
    node_rows: usize,
    members: &[i32],
    member_count: usize,
    out: &mut [u8],
) -> u64
    ensures value { result ≡ written_packed (written (write_proof table.now rows nodes.now node_rows members.now member_count (length out.old))) }
    ensures out_after { out.new ≡ output (length out.old) (write_proof table.now rows nodes.now node_rows members.now member_count (length out.old)) }
{
    told::written(writing::write_proof(table, rows, nodes, node_rows, members, member_count, out))
}

// A model's text is written.
#[unsafe(no_mangle)]
pub extern "C" fn zorambi_write_model(
    n: i32,
    pairs: &[i32],
    pair_rows: usize,
    out: &mut [u8],
) -> u64
    ensures value { result ≡ written_packed (written (write_model n pairs.now pair_rows (length out.old))) }
    ensures out_after { out.new ≡ output (length out.old) (write_model n pairs.now pair_rows (length out.old)) }
{
    told::written(writing::write_model(n, pairs, pair_rows, out))
}

// Line k of a text, counted from 1: where it starts, and its length without its byte 10. Both are 0 where there is no such line.
#[unsafe(no_mangle)]
pub extern "C" fn zorambi_line(text: &[u8], k: usize, span: &mut [usize; 2])
    ensures { span.new ≡ (line_span text.now k).start ∷ (line_span text.now k).len ∷ [] }
{
    told::span(line::span_of(text, k), span)
}
