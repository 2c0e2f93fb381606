// Ways there and back: a text is read and written again, rows are written and read again. After a refusal in either step all
// lent memory is 0, what the other step left there too.
#![tactic(auto)]

ghost use Rattle.std.specs.Prelude.{◌≡◌, ◌*◌, leb, pos, length, take};
ghost use Rattle.stab.specs.Basic.{◌and◌};
ghost use Rattle.stab.specs.Read.{read_schema, schema_table, read_proof, proof_table, node_table, member_table, read_model, pair_table};
ghost use Rattle.stab.specs.Write.{write_schema, write_proof, write_model, output};
ghost use Rattle.stab.specs.Answer.{schema_numbers, proof_numbers, model_numbers, written_numbers};
ghost use Rattle.round.specs.Again.{text_again, bytes_again, schema_again, proof_again, model_again, table_again, kept, answer_number};

use stab::{ModelHeader, ProofCounts, Refused, SchemaHeader};

// A table stays where a text was written, and is cleared where none was.
fn keep_table(written: Result<usize, Refused>, table: &mut [i32])
    ensures { table.new ≡ kept (pos 0) (written_numbers written).answer table.old }
{
    if written.is_err() {
        signed::clear(table, 0);
    }
}

// An output stays where something was read from it, and is cleared where nothing was.
fn keep_output<T>(read: &Result<T, Refused>, out: &mut [u8])
    ensures { out.new ≡ kept 0 (answer_number read.now) out.old }
{
    if read.is_err() {
        output::clear(out);
    }
}

// A schema text is read and, where it is accepted, written again from its rows: the output is that very text.
pub fn schema_again(text: &[u8], table: &mut [i32], out: &mut [u8]) -> Result<usize, Refused>
    ensures answer { result ≡ text_again (read_schema (length table.old) text.now) (length out.old) text.now }
    ensures bytes { out.new ≡ bytes_again (read_schema (length table.old) text.now) (length out.old) text.now }
    ensures rows { table.new ≡ kept (pos 0) (written_numbers result).answer (schema_table (length table.old) (read_schema (length table.old) text.now)) }
{
    match text::read::read_schema(text, table) {
        Ok(h) => {
            let written = writing::write_schema(table, h.rows, h.root, h.least, out);
            keep_table(written, table);
            written
        }
        Err(refused) => {
            output::clear(out);
            Err(refused)
        }
    }
}

// A proof text, likewise.
pub fn proof_again(
    text: &[u8],
    table: &mut [i32],
    nodes: &mut [i32],
    members: &mut [i32],
    out: &mut [u8],
) -> Result<usize, Refused>
    ensures answer { result ≡ text_again (read_proof (length table.old) (length nodes.old) (length members.old) text.now) (length out.old) text.now }
    ensures bytes { out.new ≡ bytes_again (read_proof (length table.old) (length nodes.old) (length members.old) text.now) (length out.old) text.now }
    ensures rows { table.new ≡ kept (pos 0) (written_numbers result).answer (proof_table (length table.old) (read_proof (length table.old) (length nodes.old) (length members.old) text.now)) }
    ensures nodes { nodes.new ≡ kept (pos 0) (written_numbers result).answer (node_table (length nodes.old) (read_proof (length table.old) (length nodes.old) (length members.old) text.now)) }
    ensures members { members.new ≡ kept (pos 0) (written_numbers result).answer (member_table (length members.old) (read_proof (length table.old) (length nodes.old) (length members.old) text.now)) }
{
    match text::read::read_proof(text, table, nodes, members) {
        Ok(counts) => {
            let written = writing::write_proof(
                table,
                counts.rows,
                nodes,
                counts.nodes,
                members,
                counts.members,
                out,
            );
            keep_table(written, table);
            keep_table(written, nodes);
            keep_table(written, members);
            written
        }
        Err(refused) => {
            output::clear(out);
            Err(refused)
        }
    }
}

// A model text, likewise.
pub fn model_again(text: &[u8], pairs: &mut [i32], out: &mut [u8]) -> Result<usize, Refused>
    ensures answer { result ≡ text_again (read_model (length pairs.old) text.now) (length out.old) text.now }
    ensures bytes { out.new ≡ bytes_again (read_model (length pairs.old) text.now) (length out.old) text.now }
    ensures pairs { pairs.new ≡ kept (pos 0) (written_numbers result).answer (pair_table (length pairs.old) (read_model (length pairs.old) text.now)) }
{
    match text::read::read_model(text, pairs) {
        Ok(h) => {
            let written = writing::write_model(h.n, pairs, h.pairs, out);
            keep_table(written, pairs);
            written
        }
        Err(refused) => {
            output::clear(out);
            Err(refused)
        }
    }
}

// A schema's rows are written and, where they can be, read again from the text: the same rows.
pub fn schema_rows_again(
    table: &[i32],
    rows: usize,
    root: i32,
    least: i32,
    out: &mut [u8],
    back: &mut [i32],
) -> Result<SchemaHeader, Refused>
    ensures answer { result ≡ schema_again (write_schema table.now rows root least (length out.old)) (leb 4096 (length back.old)) root least rows }
    ensures rows { back.new ≡ table_again (write_schema table.now rows root least (length out.old)) (leb 4096 (length back.old)) (length back.old) (take (4 * rows) table.now) }
    ensures bytes { out.new ≡ kept 0 (schema_numbers result).answer (output (length out.old) (write_schema table.now rows root least (length out.old))) }
{
    match writing::write_schema(table, rows, root, least, out) {
        Ok(bytes) => {
            let read = text::read::read_schema(&out[..bytes], back);
            keep_output(&read, out);
            read
        }
        Err(refused) => {
            signed::clear(back, 0);
            Err(refused)
        }
    }
}

// A proof's rows, nodes and members, likewise.
pub fn proof_rows_again(
    table: &[i32],
    rows: usize,
    nodes: &[i32],
    node_rows: usize,
    members: &[i32],
    member_count: usize,
    out: &mut [u8],
    back_table: &mut [i32],
    back_nodes: &mut [i32],
    back_members: &mut [i32],
) -> Result<ProofCounts, Refused>
    ensures answer { result ≡ proof_again (write_proof table.now rows nodes.now node_rows members.now member_count (length out.old)) (leb 4096 (length back_table.old) and leb 9216 (length back_nodes.old) and leb 8192 (length back_members.old)) rows node_rows member_count }
    ensures rows { back_table.new ≡ table_again (write_proof table.now rows nodes.now node_rows members.now member_count (length out.old)) (leb 4096 (length back_table.old) and leb 9216 (length back_nodes.old) and leb 8192 (length back_members.old)) (length back_table.old) (take (4 * rows) table.now) }
    ensures nodes { back_nodes.new ≡ table_again (write_proof table.now rows nodes.now node_rows members.now member_count (length out.old)) (leb 4096 (length back_table.old) and leb 9216 (length back_nodes.old) and leb 8192 (length back_members.old)) (length back_nodes.old) (take (9 * node_rows) nodes.now) }
    ensures members { back_members.new ≡ table_again (write_proof table.now rows nodes.now node_rows members.now member_count (length out.old)) (leb 4096 (length back_table.old) and leb 9216 (length back_nodes.old) and leb 8192 (length back_members.old)) (length back_members.old) (take member_count members.now) }
    ensures bytes { out.new ≡ kept 0 (proof_numbers result).answer (output (length out.old) (write_proof table.now rows nodes.now node_rows members.now member_count (length out.old))) }
{
    match writing::write_proof(table, rows, nodes, node_rows, members, member_count, out) {
        Ok(bytes) => {
            let read = text::read::read_proof(&out[..bytes], back_table, back_nodes, back_members);
            keep_output(&read, out);
            read
        }
        Err(refused) => {
            signed::clear(back_table, 0);
            signed::clear(back_nodes, 0);
            signed::clear(back_members, 0);
            Err(refused)
        }
    }
}

// A model's pairs, likewise.
pub fn model_rows_again(
    n: i32,
    pairs: &[i32],
    pair_rows: usize,
    out: &mut [u8],
    back: &mut [i32],
) -> Result<ModelHeader, Refused>
    ensures answer { result ≡ model_again (write_model n pairs.now pair_rows (length out.old)) (leb 8192 (length back.old)) n pair_rows }
    ensures pairs { back.new ≡ table_again (write_model n pairs.now pair_rows (length out.old)) (leb 8192 (length back.old)) (length back.old) (take (2 * pair_rows) pairs.now) }
    ensures bytes { out.new ≡ kept 0 (model_numbers result).answer (output (length out.old) (write_model n pairs.now pair_rows (length out.old))) }
{
    match writing::write_model(n, pairs, pair_rows, out) {
        Ok(bytes) => {
            let read = text::read::read_model(&out[..bytes], back);
            keep_output(&read, out);
            read
        }
        Err(refused) => {
            signed::clear(back, 0);
            Err(refused)
        }
    }
}
