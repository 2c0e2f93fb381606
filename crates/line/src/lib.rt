// A line of a text by its number, handed over as that very part of the text; and the numbers of lines.
#![tactic(auto)]

ghost use Rattle.std.specs.Prelude.{◌≡◌, ◌+◌, ◌≤◌, ◌<◌, ◌^◌, length, drop};
ghost use Rattle.stab.specs.Text.{lines};
ghost use Rattle.stab.specs.LineNumber.{span_from, line_span, line_of, schema_row_line, proof_row_line, node_line};
ghost use Rattle.line.specs.LineParts.{line_length, named, PartOf};

// Where the first byte 10 from `from` on stands, or the text's end. A loop by hand: by `position`, or by a `for`, a far line takes up to
// twice the time.
fn end_of(text: &[u8], from: usize) -> usize
    requires { from ≤ length text.now }
    ensures { result ≡ from + line_length (drop from text.now) }
{
    let mut i = from;
    while i < text.len() {
        if text[i] == b'\n' {
            return i;
        }
        i += 1;
    }
    i
}

// Where line k starts, and the text's end where there are not so many lines.
fn start_of(text: &[u8], k: usize) -> usize
    requires { 1 ≤ k }
    ensures { (result ≤ length text.now) × (span_from result 1 (lines (drop result text.now)) ≡ line_span text.now k) }
{
    let mut at = 0;
    for _ in 1..k {
        let end = end_of(text, at);
        if end == text.len() {
            return end;
        }
        at = end + 1;
    }
    at
}

// Where a line stands in its text: its start, and its length without its byte 10.
#[derive(Clone, Copy)]
pub struct Span {
    pub start: usize,
    pub len: usize,
}

// The place of line k, counted from 1; all 0 where there is no such line.
pub fn span_of(text: &[u8], k: usize) -> Span
    ensures start_value { (result.start ≡ (line_span text.now k).start) × (result.len ≡ (line_span text.now k).len) }
    ensures len_in_bounds { result.start + result.len ≤ length text.now }
{
    if k == 0 {
        return Span { start: 0, len: 0 };
    }
    let at = start_of(text, k);
    let end = end_of(text, at);
    if end < text.len() {
        return Span {
            start: at,
            len: end - at,
        };
    }
    Span { start: 0, len: 0 }
}

// Line k, counted from 1, without its byte 10; the text's empty start where there is no such line.
fn line_in(text: &[u8], k: usize) -> &[u8]
    ensures { PartOf text.entry result (line_span text.now k) }
{
    let s = span_of(text, k);
    let at = s.start;
    let end = at + s.len;
    &text[at..end]
}

// Line k of the proof text, or of the schema text.
pub fn line<'a>(schema: &'a [u8], proof: &'a [u8], of_proof: bool, k: usize) -> &'a [u8]
    ensures result_value { result.now ≡ line_of (named of_proof schema.entry proof.entry).now k }
    ensures part_of { PartOf (named of_proof schema.entry proof.entry) result (line_span (named of_proof schema.entry proof.entry).now k) }
{
    if of_proof {
        line_in(proof, k)
    } else {
        line_in(schema, k)
    }
}

// The line of schema row r in the schema text.
pub fn schema_row_line(r: usize) -> usize
    requires { r < 2 ^ 32 }
    ensures { result ≡ schema_row_line r }
{
    4 + r
}

// The line of proof row r in the proof text, after s schema rows.
pub fn proof_row_line(s: usize, r: usize) -> usize
    requires { r < 2 ^ 32 }
    ensures { result ≡ proof_row_line s r }
{
    if 2 + r < s {
        return 0;
    }
    2 + r - s
}

// The line of node j in the proof text, after p proof rows.
pub fn node_line(p: usize, j: usize) -> usize
    requires { (p < 2 ^ 32) × (j < 2 ^ 32) }
    ensures { result ≡ node_line p j }
{
    3 + p + j
}
