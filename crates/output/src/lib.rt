// Rows put as lines into a lent output. Each function is lent what is left of the output, writes into its front, and
// says how many bytes it wrote.
#![tactic(auto)]

ghost use Rattle.std.specs.Prelude.{◌≡◌, true, ◌∷◌, [], ◌++◌, ◌≤◌, length, replicate};
ghost use Rattle.stab.specs.Basic.{all_of};
ghost use Rattle.stab.specs.Text.{five_digits, row_line, heading_line};
ghost use Rattle.stab.specs.Write.{row_lines, node_lines, proof_text};
ghost use Rattle.digits.specs.Over.{over, spread};
ghost use Rattle.output.specs.NodeTexts.{NodesWritable};
ghost use Rattle.output.specs.Headed.{headed_text, Writable, Front};

use digits::put_number;
use stab::heading;

// All bytes 0.
pub fn clear(out: &mut [u8])
    ensures { out.new ≡ replicate (length out.old) 0 }
{
    out.fill(0);
}

// A heading's line. Not by the library's copy, which would have the archive for C need memmove.
pub fn put_heading(out: &mut [u8], text: &[u8]) -> usize
    requires { length (heading_line text.now) ≤ length out.old }
    ensures { (result ≡ length (heading_line text.now)) × (out.new ≡ over (heading_line text.now) out.old) }
{
    let n = text.len();
    for i in 0..n {
        out[i] = text[i];
    }
    out[n] = b'\n';
    n + 1
}

// A number and a space.
fn put_spaced(out: &mut [u8], z: i32) -> usize
    requires { (five_digits z ≡ true) × (length (spread (z ∷ [])) ≤ length out.old) }
    ensures { (result ≡ length (spread (z ∷ []))) × (out.new ≡ over (spread (z ∷ [])) out.old) }
{
    let n = put_number(out, z);
    out[n] = b' ';
    n + 1
}

// Numbers with a space after each.
fn put_numbers(out: &mut [u8], t: &[i32]) -> usize
    requires { (all_of five_digits t.now ≡ true) × (length (spread t.now) ≤ length out.old) }
    ensures { (result ≡ length (spread t.now)) × (out.new ≡ over (spread t.now) out.old) }
{
    let mut at = 0;
    for z in t {
        at += put_spaced(&mut out[at..], *z);
    }
    at
}

// A row's line: byte 10 takes the place of the last space.
pub fn put_row(out: &mut [u8], row: &[i32]) -> usize
    requires { (1 ≤ length row.now) × (all_of five_digits row.now ≡ true) × (length (row_line row.now) ≤ length out.old) }
    ensures { (result ≡ length (row_line row.now)) × (out.new ≡ over (row_line row.now) out.old) }
{
    let n = put_numbers(out, row);
    out[n - 1] = b'\n';
    n
}

// A node row's line: its numbers, then its set.
fn put_node(out: &mut [u8], row: &[i32], set: &[i32]) -> usize
    requires { Front row.now × (all_of five_digits set.now ≡ true) × (length (row_line (row.now ++ set.now)) ≤ length out.old) }
    ensures { (result ≡ length (row_line (row.now ++ set.now))) × (out.new ≡ over (row_line (row.now ++ set.now)) out.old) }
{
    let at = put_numbers(out, row);
    let n = at + put_numbers(&mut out[at..], set);
    out[n - 1] = b'\n';
    n
}

// Rows of w numbers, a line each: the next row goes into what is left of the output.
fn put_rows(out: &mut [u8], w: usize, t: &[i32], rows: usize) -> usize
    requires { Writable w t.now rows × (length (row_lines w rows t.now) ≤ length out.old) }
    ensures { (result ≡ length (row_lines w rows t.now)) × (out.new ≡ over (row_lines w rows t.now) out.old) }
{
    let mut at = 0;
    for row in t[..w * rows].chunks_exact(w) {
        at += put_row(&mut out[at..], row);
    }
    at
}

// A heading, one line, a heading, rows.
pub fn put_headed(
    out: &mut [u8],
    first: &[u8],
    line: &[i32],
    second: &[u8],
    w: usize,
    t: &[i32],
    rows: usize,
) -> usize
    requires { Front line.now × Writable w t.now rows × (length (headed_text first.now line.now second.now w t.now rows) ≤ length out.old) }
    ensures { (result ≡ length (headed_text first.now line.now second.now w t.now rows)) × (out.new ≡ over (headed_text first.now line.now second.now w t.now rows) out.old) }
{
    let mut at = put_heading(out, first);
    at += put_row(&mut out[at..], line);
    at += put_heading(&mut out[at..], second);
    at + put_rows(&mut out[at..], w, t, rows)
}

// Node rows, a line each.
fn put_nodes(out: &mut [u8], nodes: &[i32], count: usize, members: &[i32]) -> usize
    requires { NodesWritable nodes.now count members.now × (length (node_lines nodes.now members.now 0 count) ≤ length out.old) }
    ensures { (result ≡ length (node_lines nodes.now members.now 0 count)) × (out.new ≡ over (node_lines nodes.now members.now 0 count) out.old) }
{
    let mut at = 0;
    let mut start = 0;
    for row in nodes[..9 * count].chunks_exact(9) {
        let end = start + signed::natural_at(row, 8);
        at += put_node(&mut out[at..], &row[..7], &members[start..end]);
        start = end;
    }
    at
}

// Formula rows and node rows, each under its heading.
pub fn put_proof(
    out: &mut [u8],
    t: &[i32],
    rows: usize,
    nodes: &[i32],
    count: usize,
    members: &[i32],
) -> usize
    requires { Writable 4 t.now rows × NodesWritable nodes.now count members.now × (length (proof_text t.now rows nodes.now count members.now) ≤ length out.old) }
    ensures { (result ≡ length (proof_text t.now rows nodes.now count members.now)) × (out.new ≡ over (proof_text t.now rows nodes.now count members.now) out.old) }
{
    let mut at = put_heading(out, &heading::ROWS);
    at += put_rows(&mut out[at..], 4, t, rows);
    at += put_heading(&mut out[at..], &heading::NODES);
    at + put_nodes(&mut out[at..], nodes, count, members)
}
