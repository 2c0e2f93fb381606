// Readers of schema, proof and model texts.
ghost use Rattle.std.specs.Prelude.{◌≡◌, leb, length};
ghost use Rattle.stab.specs.Basic.{◌and◌};
ghost use Rattle.stab.specs.Read.{read_schema, schema_answer, schema_table, read_model, model_answer, pair_table, read_proof, proof_answer, proof_table, node_table, member_table};
ghost use Rattle.text.specs.Texts.{SchemaOf, SchemaFrom, ModelOf, ModelFrom, ProofOf, ProofFrom};

use crate::awaited::Awaited;
use crate::reader;
use stab::{ModelHeader, ProofCounts, Refusal, Refused, SchemaHeader};

// What the lines of a schema text came to, as an answer; no schema text comes to the last.
fn schema_read(p: Awaited, root: i32, least: i32) -> Result<SchemaHeader, Refused>
    ensures { SchemaFrom p root least result }
{
    match p {
        Awaited::Schema { rows } => Ok(SchemaHeader { rows, root, least }),
        Awaited::NoHeading { line } => Err(Refusal::Heading.at(line)),
        Awaited::BadLine { line } => Err(Refusal::Line.at(line)),
        Awaited::TooMany { line } => Err(Refusal::TooMany.at(line)),
        _ => Err(Refusal::Line.at(0)),
    }
}

// A schema text whose rows are stored in front; what stands past them is no matter.
fn schema_text(text: &[u8], table: &mut [i32]) -> Result<SchemaHeader, Refused>
    ensures { SchemaOf (read_schema (length table.old) text.now) table.new result }
{
    if 65536 < text.len() {
        return Err(Refusal::TextTooLong.at(0));
    }
    if table.len() < 4096 {
        return Err(Refusal::TableTooShort.at(0));
    }
    let mut values = [0i32; 2];
    let mut none = [0i32; 1];
    let p = reader::read_lines(text, Awaited::SchemaHeading, table, &mut values, &mut none);
    schema_read(p, signed::at(&values, 0), signed::at(&values, 1))
}

// A schema text is read into a lent table.
pub fn read_schema(text: &[u8], table: &mut [i32]) -> Result<SchemaHeader, Refused>
    ensures answer { result ≡ schema_answer (read_schema (length table.old) text.now) }
    ensures rows { table.new ≡ schema_table (length table.old) (read_schema (length table.old) text.now) }
{
    let read = schema_text(text, table);
    match read {
        Ok(h) => signed::clear(table, 4 * h.rows),
        Err(_) => signed::clear(table, 0),
    }
    read
}

// What the lines of a model text came to, as an answer; no model text comes to the last.
fn model_read(p: Awaited, n: i32) -> Result<ModelHeader, Refused>
    ensures { ModelFrom p n result }
{
    match p {
        Awaited::Model { pairs } => Ok(ModelHeader { n, pairs }),
        Awaited::NoHeading { line } => Err(Refusal::Heading.at(line)),
        Awaited::BadLine { line } => Err(Refusal::Line.at(line)),
        Awaited::TooMany { line } => Err(Refusal::TooMany.at(line)),
        _ => Err(Refusal::Line.at(0)),
    }
}

// A model text whose pairs are stored in front; what stands past them is no matter.
fn model_text(text: &[u8], table: &mut [i32]) -> Result<ModelHeader, Refused>
    ensures { ModelOf (read_model (length table.old) text.now) table.new result }
{
    if 65536 < text.len() {
        return Err(Refusal::TextTooLong.at(0));
    }
    if table.len() < 8192 {
        return Err(Refusal::TableTooShort.at(0));
    }
    let mut values = [0i32; 1];
    let mut none = [0i32; 1];
    let p = reader::read_lines(text, Awaited::ModelHeading, table, &mut values, &mut none);
    model_read(p, signed::at(&values, 0))
}

// A model text is read into a lent table.
pub fn read_model(text: &[u8], table: &mut [i32]) -> Result<ModelHeader, Refused>
    ensures answer { result ≡ model_answer (read_model (length table.old) text.now) }
    ensures pairs { table.new ≡ pair_table (length table.old) (read_model (length table.old) text.now) }
{
    let read = model_text(text, table);
    match read {
        Ok(h) => signed::clear(table, 2 * h.pairs),
        Err(_) => signed::clear(table, 0),
    }
    read
}

// All three lent tables have their full size.
pub fn full(table: &[i32], nodes: &[i32], members: &[i32]) -> bool
    ensures { result ≡ (leb 4096 (length table.now) and leb 9216 (length nodes.now) and leb 8192 (length members.now)) }
{
    if table.len() < 4096 {
        return false;
    }
    if nodes.len() < 9216 {
        return false;
    }
    8192 <= members.len()
}

// What the lines of a proof text came to, as an answer; no proof text comes to the last.
fn proof_read(p: Awaited) -> Result<ProofCounts, Refused>
    ensures { ProofFrom p result }
{
    match p {
        Awaited::Proof {
            rows,
            nodes,
            members,
        } => Ok(ProofCounts {
            rows,
            nodes,
            members,
        }),
        Awaited::NoHeading { line } => Err(Refusal::Heading.at(line)),
        Awaited::BadLine { line } => Err(Refusal::Line.at(line)),
        Awaited::TooMany { line } => Err(Refusal::TooMany.at(line)),
        _ => Err(Refusal::Line.at(0)),
    }
}

// A proof text whose rows, nodes and members are stored in front; what stands past them is no matter.
fn proof_text(
    text: &[u8],
    table: &mut [i32],
    nodes: &mut [i32],
    members: &mut [i32],
) -> Result<ProofCounts, Refused>
    ensures { ProofOf (read_proof (length table.old) (length nodes.old) (length members.old) text.now) table.new nodes.new members.new result }
{
    if 65536 < text.len() {
        return Err(Refusal::TextTooLong.at(0));
    }
    if !full(table, nodes, members) {
        return Err(Refusal::TableTooShort.at(0));
    }
    proof_read(reader::read_lines(text, Awaited::ProofHeading, table, nodes, members))
}

// A proof text is read into lent tables: its formula rows, its nodes and the members of their sets.
pub fn read_proof(
    text: &[u8],
    table: &mut [i32],
    nodes: &mut [i32],
    members: &mut [i32],
) -> Result<ProofCounts, Refused>
    ensures answer { result ≡ proof_answer (read_proof (length table.old) (length nodes.old) (length members.old) text.now) }
    ensures rows { table.new ≡ proof_table (length table.old) (read_proof (length table.old) (length nodes.old) (length members.old) text.now) }
    ensures nodes { nodes.new ≡ node_table (length nodes.old) (read_proof (length table.old) (length nodes.old) (length members.old) text.now) }
    ensures members { members.new ≡ member_table (length members.old) (read_proof (length table.old) (length nodes.old) (length members.old) text.now) }
{
    let read = proof_text(text, table, nodes, members);
    match read {
        Ok(counts) => {
            signed::clear(table, 4 * counts.rows);
            signed::clear(nodes, 9 * counts.nodes);
            signed::clear(members, counts.members);
        }
        Err(_) => {
            signed::clear(table, 0);
            signed::clear(nodes, 0);
            signed::clear(members, 0);
        }
    }
    read
}
