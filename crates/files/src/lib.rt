// What the programs do with files: a text is read whole, and the line at fault is shown. What is read and what is written no contract can say.
#![tactic(auto)]

ghost use Rattle.std.specs.Prelude.{◌≡◌, length, replicate};
ghost use Rattle.line.specs.LineParts.{named};
ghost use Rattle.shown.specs.Told.{told_at};
ghost use Rattle.files.specs.Loaded.{IsPrefixLen, Loaded};

use stab::Fault;
use std::fs;
use std::io::{Print, Read};
use std::rt::Files;

// Room for a text and 64 bytes more: for its longest line with a file's name and a number. A text that goes on past 65,536 bytes is refused as too long.
pub fn room() -> [u8; 65600]
    ensures { result ≡ replicate 65600 0 }
{
    [0; 65600]
}

// Reads to the end or to that of the buffer, and answers how many bytes stand in front of the buffer, or none where a read fails.
fn fill<F: Read>(file: &mut F, buf: &mut [u8]) -> usize
    ensures { IsPrefixLen result buf.new }
{
    let mut n = 0;
    while n < buf.len() {
        match file.read(&mut buf[n..]) {
            Ok(0) => return n,
            Ok(k) => n += k,
            Err(_) => return 0,
        }
    }
    n
}

// Reads a file to its end or to that of the buffer, and answers how many bytes stand in front of the buffer. A file that cannot be
// opened, or cannot be read to its end, is empty: a text that was cut short by a fault of the disk is no text.
fn fetch<R: Files>(rt: &R, path: &[u8], buf: &mut [u8]) -> usize
    ensures { IsPrefixLen result buf.new }
{
    let Ok(name) = str::from_utf8(path) else {
        return 0;
    };
    match fs::open(rt, name) {
        Ok(mut file) => fill(&mut file, buf),
        Err(_) => 0,
    }
}

// A file's bytes in front of the buffer, how many they are, and 0 past them; all 0 where there are none. What it takes of the stack is free
// again when it returns, and no part of its caller's.
#[inline(never)]
pub fn load<R: Files>(rt: &R, path: &[u8], buf: &mut [u8]) -> usize
    ensures { Loaded (length buf.old) result buf.new }
{
    let n = fetch(rt, path, buf);
    output::clear(&mut buf[n..]);
    n
}

// The line at fault to standard error, and how many bytes it takes. Its room is made here, after the check has returned, so that the stack of
// the one and of the other do not add up: nor is it made part of the caller.
#[inline(never)]
pub fn show<'a, P: Print>(
    error: &P,
    first: &[u8],
    second: &[u8],
    schema: &'a [u8],
    proof: &'a [u8],
    fault: Fault,
) -> usize
    ensures { result ≡ length (told_at 65600 (named fault.second first.now second.now) schema.now proof.now fault) }
{
    let mut out = room();
    let n = shown::tell(first, second, schema, proof, fault, &mut out);
    let _ = error.write_all(&out[..n]);
    n
}
