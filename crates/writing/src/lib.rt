// Rows written as texts into a lent output.
#![tactic(auto)]

ghost use Rattle.std.specs.Prelude.{◌≡◌, ◌+◌, ◌*◌, ◌≤◌, length, take, leb, pos, None, Ok};
ghost use Rattle.stab.specs.Basic.{all_of, ◌and◌, eq_z, nat};
ghost use Rattle.stab.specs.Node.{set_start, set_follows};
ghost use Rattle.stab.specs.Text.{five_digits, padded};
ghost use Rattle.stab.specs.Check.{holds};
ghost use Rattle.stab.specs.Write.{node_writable, nodes_writable, sets_writable, rows_writable, proof_text, write_schema, write_proof, write_model, refused, writing, written, output};
ghost use Rattle.stab.specs.Finding.{no_refusal};
ghost use Rattle.digits.specs.Over.{spread};
ghost use Rattle.output.specs.NodeTexts.{columns_width, NodesWritable};
ghost use Rattle.output.specs.Headed.{headed_text, write_headed, Writable, Front, Short};

use digits::{fits, width};
use output::{clear, put_headed, put_proof};
use stab::{Refusal, Refused, heading};

// Every number can be written.
fn writable(t: &[i32]) -> bool
    ensures { result ≡ all_of five_digits t.now }
{
    t.iter().all(|z| fits(*z))
}

// How many bytes the numbers take, with a byte after each.
fn spread_width(t: &[i32]) -> usize
    ensures { result ≡ length (spread t.now) }
{
    let numbers: usize = t.iter().map(|z| width(*z)).sum();
    numbers + t.len()
}

// How many bytes the seven numbers of each node take, with a byte after each.
fn columns_width(nodes: &[i32], count: usize) -> usize
    requires { 9 * count ≤ length nodes.now }
    ensures { result ≡ columns_width nodes.now count }
{
    let mut sum = 0;
    for row in nodes[..9 * count].chunks_exact(9) {
        sum += spread_width(&row[..7]);
    }
    sum
}

// Node j's set starts where it has to, is not shorter than 0, and its seven numbers can be written.
fn node_follows(nodes: &[i32], j: usize, start: usize) -> bool
    requires { (9 * j + 9 ≤ length nodes.now) × (set_start nodes.now j ≡ pos start) }
    ensures { result ≡ (set_follows nodes.now j and node_writable nodes.now j) }
{
    let from = 9 * j;
    let to = from + 7;
    if signed::under_at(nodes, to) != 0 {
        return false;
    }
    if signed::natural_at(nodes, to) != start {
        return false;
    }
    if signed::under_at(nodes, to + 1) != 0 {
        return false;
    }
    writable(&nodes[from..to])
}

// The sets follow one another to the last of m members, and the nodes' numbers can be written.
fn nodes_follow(nodes: &[i32], count: usize, m: usize) -> bool
    requires { (9 * count ≤ length nodes.now) × (count ≤ 1024) }
    ensures { result ≡ (nodes_writable nodes.now count and eq_z (set_start nodes.now count) (pos m)) }
{
    let mut start = 0;
    for j in 0..count {
        if !node_follows(nodes, j, start) {
            return false;
        }
        start += signed::natural(nodes[9 * j + 8]);
    }
    start == m
}

// The answer to a refusal, with the output all 0.
fn refuse(out: &mut [u8], why: Refusal) -> Result<usize, Refused>
    ensures { (result ≡ written (refused why None)) × (out.new ≡ output (length out.old) (refused why None)) }
{
    clear(out);
    Err(why.whole())
}

// The answer after a text of so many bytes, with the output 0 past them.
fn finish(out: &mut [u8], bytes: usize) -> Result<usize, Refused>
    requires { bytes ≤ length out.old }
    ensures { (result ≡ Ok bytes) × (out.new ≡ padded 0 (length out.old) (take bytes out.old)) }
{
    clear(&mut out[bytes..]);
    Ok(bytes)
}

// Such a text, or refusal 22.
fn fill_headed(
    first: &[u8],
    line: &[i32],
    second: &[u8],
    w: usize,
    t: &[i32],
    rows: usize,
    out: &mut [u8],
) -> Result<usize, Refused>
    requires { Short first.now line.now second.now × Front line.now × Writable w t.now rows }
    ensures value { result ≡ written (writing no_refusal (length out.old) (headed_text first.now line.now second.now w t.now rows)) }
    ensures out_after { out.new ≡ output (length out.old) (writing no_refusal (length out.old) (headed_text first.now line.now second.now w t.now rows)) }
{
    let count = w * rows;
    let bytes = first.len() + second.len() + 2 + spread_width(line) + spread_width(&t[..count]);
    if out.len() < bytes {
        return refuse(out, Refusal::Output);
    }
    if 65536 < bytes {
        return refuse(out, Refusal::Output);
    }
    put_headed(out, first, line, second, w, t, rows);
    finish(out, bytes)
}

// Such a text, or the refusal: 2, 5, 21, 22 in this order.
fn write_headed(
    first: &[u8],
    line: &[i32],
    second: &[u8],
    w: usize,
    most: usize,
    t: &[i32],
    rows: usize,
    out: &mut [u8],
) -> Result<usize, Refused>
    requires { Short first.now line.now second.now × (1 ≤ w) }
    ensures value { result ≡ written (write_headed first.now line.now second.now w most t.now rows (length out.old)) }
    ensures out_after { out.new ≡ output (length out.old) (write_headed first.now line.now second.now w most t.now rows (length out.old)) }
{
    if !signed::holds(t, w, rows) {
        return refuse(out, Refusal::TableTooShort);
    }
    if most < rows {
        return refuse(out, Refusal::TooMany);
    }
    if !writable(line) {
        return refuse(out, Refusal::Number);
    }
    let count = w * rows;
    if !writable(&t[..count]) {
        return refuse(out, Refusal::Number);
    }
    fill_headed(first, line, second, w, t, rows, out)
}

// The tables hold what their counts say.
fn proof_held(
    t: &[i32],
    rows: usize,
    nodes: &[i32],
    count: usize,
    members: &[i32],
    m: usize,
) -> bool
    ensures { result ≡ (holds t.now 4 rows and holds nodes.now 9 count and holds members.now 1 m) }
{
    if !signed::holds(t, 4, rows) {
        return false;
    }
    if !signed::holds(nodes, 9, count) {
        return false;
    }
    signed::holds(members, 1, m)
}

// There are no more rows and members than allowed.
fn proof_few(rows: usize, count: usize, m: usize) -> bool
    ensures { result ≡ (leb rows 1024 and leb count 1024 and leb m 8192) }
{
    if 1024 < rows {
        return false;
    }
    if 1024 < count {
        return false;
    }
    m <= 8192
}

// Every number can be written, and the sets follow one another to the last member.
fn proof_writable(
    t: &[i32],
    rows: usize,
    nodes: &[i32],
    count: usize,
    members: &[i32],
    m: usize,
) -> bool
    requires { (4 * rows ≤ length t.now) × (9 * count ≤ length nodes.now) × (count ≤ 1024) × (m ≤ length members.now) }
    ensures { result ≡ (rows_writable 4 rows t.now and sets_writable nodes.now count members.now m) }
{
    let numbers = 4 * rows;
    if !writable(&t[..numbers]) {
        return false;
    }
    if !nodes_follow(nodes, count, m) {
        return false;
    }
    writable(&members[..m])
}

// A proof's text, or refusal 22.
fn fill_proof(
    t: &[i32],
    rows: usize,
    nodes: &[i32],
    count: usize,
    members: &[i32],
    m: usize,
    out: &mut [u8],
) -> Result<usize, Refused>
    requires writable { Writable 4 t.now rows × NodesWritable nodes.now count members.now × (nat (set_start nodes.now count) ≡ m) }
    requires rows_bound { (rows ≤ 1024) × (count ≤ 1024) × (m ≤ 8192) }
    ensures value { result ≡ written (writing no_refusal (length out.old) (proof_text t.now rows nodes.now count members.now)) }
    ensures out_after { out.new ≡ output (length out.old) (writing no_refusal (length out.old) (proof_text t.now rows nodes.now count members.now)) }
{
    let numbers = 4 * rows;
    let bytes = 43
        + spread_width(&t[..numbers])
        + columns_width(nodes, count)
        + spread_width(&members[..m]);
    if out.len() < bytes {
        return refuse(out, Refusal::Output);
    }
    if 65536 < bytes {
        return refuse(out, Refusal::Output);
    }
    put_proof(out, t, rows, nodes, count, members);
    finish(out, bytes)
}

// A schema's text.
pub fn write_schema(
    table: &[i32],
    rows: usize,
    root: i32,
    least: i32,
    out: &mut [u8],
) -> Result<usize, Refused>
    ensures value { result ≡ written (write_schema table.now rows root least (length out.old)) }
    ensures out_after { out.new ≡ output (length out.old) (write_schema table.now rows root least (length out.old)) }
{
    let line = [root, least];
    write_headed(
        &heading::SCHEMA,
        &line,
        &heading::ROWS,
        4,
        1024,
        table,
        rows,
        out,
    )
}

// A proof's text.
pub fn write_proof(
    table: &[i32],
    rows: usize,
    nodes: &[i32],
    node_rows: usize,
    members: &[i32],
    member_count: usize,
    out: &mut [u8],
) -> Result<usize, Refused>
    ensures value { result ≡ written (write_proof table.now rows nodes.now node_rows members.now member_count (length out.old)) }
    ensures out_after { out.new ≡ output (length out.old) (write_proof table.now rows nodes.now node_rows members.now member_count (length out.old)) }
{
    if !proof_held(table, rows, nodes, node_rows, members, member_count) {
        return refuse(out, Refusal::TableTooShort);
    }
    if !proof_few(rows, node_rows, member_count) {
        return refuse(out, Refusal::TooMany);
    }
    if !proof_writable(table, rows, nodes, node_rows, members, member_count) {
        return refuse(out, Refusal::Number);
    }
    fill_proof(table, rows, nodes, node_rows, members, member_count, out)
}

// A model's text.
pub fn write_model(
    n: i32,
    pairs: &[i32],
    pair_rows: usize,
    out: &mut [u8],
) -> Result<usize, Refused>
    ensures value { result ≡ written (write_model n pairs.now pair_rows (length out.old)) }
    ensures out_after { out.new ≡ output (length out.old) (write_model n pairs.now pair_rows (length out.old)) }
{
    let line = [n];
    write_headed(
        &heading::MODEL,
        &line,
        &heading::PAIRS,
        2,
        4096,
        pairs,
        pair_rows,
        out,
    )
}
