// A line as the programs show it: its file's name, its number, the line.
#![tactic(auto)]

ghost use Rattle.std.specs.Prelude.{◌≡◌, ◌++◌, ◌+◌, ◌≤◌, leb, pos, length};
ghost use Rattle.stab.specs.Text.{bytes, decimal, padded};
ghost use Rattle.digits.specs.Over.{over};
ghost use Rattle.line.specs.LineParts.{named};
ghost use Rattle.printing.specs.Printing.{Counts};
ghost use Rattle.shown.specs.Told.{told, told_in, told_at};

use digits::{put_number, width};
use line::line;
use output::{clear, put_heading};
use stab::Fault;

// Three parts of these lengths fit into n bytes. Their sum may be no number of the type.
fn has_room(n: usize, a: usize, b: usize, c: usize) -> bool
    ensures { result ≡ leb (a + b + c) n }
{
    if n < a {
        return false;
    }
    if n - a < b {
        return false;
    }
    c <= n - a - b
}

// A name and a colon, which takes the place of byte 10.
fn put_name(out: &mut [u8], name: &[u8]) -> usize
    requires { length (name.now ++ bytes ":") ≤ length out.old }
    ensures { (result ≡ length (name.now ++ bytes ":")) × (out.new ≡ over (name.now ++ bytes ":") out.old) }
{
    let n = put_heading(out, name);
    out[n - 1] = b':';
    n
}

// A line's number, a colon and a space.
fn put_place(out: &mut [u8], k: usize) -> usize
    requires { (k ≤ 99999) × (length (decimal (pos k) ++ bytes ": ") ≤ length out.old) }
    ensures { (result ≡ length (decimal (pos k) ++ bytes ": ")) × (out.new ≡ over (decimal (pos k) ++ bytes ": ") out.old) }
{
    let n = put_number(out, signed::of(k));
    out[n] = b':';
    out[n + 1] = b' ';
    n + 2
}

// Name, number and line.
fn put_told(out: &mut [u8], name: &[u8], k: usize, line: &[u8]) -> usize
    requires { (k ≤ 99999) × (length (told name.now k line.now) ≤ length out.old) }
    ensures { (result ≡ length (told name.now k line.now)) × (out.new ≡ over (told name.now k line.now) out.old) }
{
    let mut at = put_name(out, name);
    at += put_place(&mut out[at..], k);
    at + put_heading(&mut out[at..], line)
}

// The same, or nothing; 0 past it.
fn tell_line(name: &[u8], k: usize, line: &[u8], out: &mut [u8]) -> usize
    ensures value { result ≡ length (told_in (length out.old) name.now k line.now) }
    ensures out_after { out.new ≡ padded 0 (length out.old) (told_in (length out.old) name.now k line.now) }
{
    clear(out);
    if k == 0 {
        return 0;
    }
    if 99999 < k {
        return 0;
    }
    let marks = width(signed::of(k)) + 4;
    if !has_room(out.len(), name.len(), line.len(), marks) {
        return 0;
    }
    put_told(out, name, k, line)
}

// The line at fault in either text, as that of the first file or of the second: how many bytes, and those, with 0 past them.
pub fn tell<'a>(
    first: &[u8],
    second: &[u8],
    schema: &'a [u8],
    proof: &'a [u8],
    fault: Fault,
    out: &mut [u8],
) -> usize
    ensures count { result ≡ length (told_at (length out.old) (named fault.second first.now second.now) schema.now proof.now fault) }
    ensures text { out.new ≡ padded 0 (length out.old) (told_at (length out.old) (named fault.second first.now second.now) schema.now proof.now fault) }
    ensures within { Counts result out.new }
{
    let k = fault.line;
    if fault.second {
        return tell_line(second, k, line(schema, proof, true, k), out);
    }
    tell_line(first, k, line(schema, proof, false, k), out)
}
