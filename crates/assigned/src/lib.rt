// The least number of an assignment that makes a schema true. One walk over the formula rows gives the values of 4,096
// assignments, as the digits of 64 words. The length of a lent array is not known where a function begins, so it is asked for.
#![tactic(auto)]

ghost use Rattle.std.specs.Prelude.{◌≡◌, ◌+◌, ◌*◌, ◌<◌, ◌≤◌, ◌%◌, ◌^◌, eqb, length, get_or, take, pos};
ghost use Rattle.stab.specs.Basic.{all_of, nat};
ghost use Rattle.stab.specs.Formula.{row_at, tree};
ghost use Rattle.stab.specs.Meaning.{signed as signedBy, truth};
ghost use Rattle.stab.specs.Occurs.{occurring};
ghost use Rattle.formula.specs.Facts.{AllKnown};
ghost use Rattle.found.specs.Find.{among};
ghost use Rattle.found.specs.Number.{numbered, least_below, least_or};
ghost use Rattle.pairs.specs.Index.{unbiased, Reached};
ghost use Rattle.pairs.specs.Reading.{IsLiteral};
ghost use Rattle.pairs.specs.Word.{word};
ghost use Rattle.assigned.specs.Words.{digit, words, digit_of, turned_word, combined_words};
ghost use Rattle.assigned.specs.Assignments.{place_of, values_from, looked_at, Evaluable, Searchable};

use formula::kept::kept_at;
use formula::rows::LOOSE;
use formula::{A, B};
use occurring::literal_key;
use pairs::moved;
use value::{combined, range_size};

// ---- words

// The same value at each digit of a word.
fn same(held: bool) -> u64
    ensures { result ≡ word (λ j. held) 64 }
{
    if held { 18446744073709551615 } else { 0 }
}

// The same value at each digit.
fn fill(held: bool, out: &mut [u64; 64])
    ensures { out.new ≡ words (λ j. held) 64 }
{
    *out = [same(held); 64];
}

// Digit b of 0, 1, .. 63.
fn low_digits(b: usize) -> u64
    requires { b < 6 }
    ensures { result ≡ word (λ j. digit j b) 64 }
{
    match b {
        0 => 0xaaaa_aaaa_aaaa_aaaa,
        1 => 0xcccc_cccc_cccc_cccc,
        2 => 0xf0f0_f0f0_f0f0_f0f0,
        3 => 0xff00_ff00_ff00_ff00,
        4 => 0xffff_0000_ffff_0000,
        _ => 0xffff_ffff_0000_0000,
    }
}

// Digit b of m, m + 1, .. m + 63.
fn digit_word(m: usize, b: usize) -> u64
    requires { (m % 64 ≡ 0) × (b < 64) }
    ensures { result ≡ word (λ j. digit (m + j) b) 64 }
{
    if b < 6 {
        return low_digits(b);
    }
    same((m >> b) % 2 == 1)
}

// A word, or each of its digits the other way.
fn turned(held: bool, w: u64) -> u64
    ensures { result ≡ turned_word held w }
{
    if held { w } else { 18446744073709551615 - w }
}

// Digit b of m, m + 1, .. m + 4095, or its negation.
fn digits(held: bool, m: usize, b: usize, out: &mut [u64; 64])
    requires { (m % 64 ≡ 0) × (m ≤ 65536) × (b < 64) × (length out.old ≡ 64) }
    ensures { out.new ≡ words (λ j. signedBy held (digit (m + j) b)) 64 }
{
    for (k, w) in out.iter_mut().enumerate() {
        *w = turned(held, digit_word(m + 64 * k, b));
    }
}

// Words that stay as they are, whatever they are combined with: by or where `any`, else by and.
fn settled(any: bool, ws: &[u64; 64]) -> bool
    requires { length ws.now ≡ 64 }
    ensures { result ≡ all_of (λ w. eqb w (word (λ j. any) 64)) ws.now }
{
    let all = same(any);
    ws.iter().all(|w| *w == all)
}

// Words and words, combined: by or where `any`, else by and.
fn combine(any: bool, out: &mut [u64; 64], ws: &[u64; 64])
    requires { (length out.old ≡ 64) × (length ws.now ≡ 64) }
    ensures { out.new ≡ combined_words any out.old ws.now }
{
    for (k, w) in out.iter_mut().enumerate() {
        *w = combined(any, *w, ws[k]);
    }
}

// The first digit that is set, or 4096.
fn first_digit(ws: &[u64; 64]) -> usize
    ensures { result ≡ least_or (least_below (digit_of ws.now) 4096) 4096 }
{
    for j in 0..4096 {
        if (ws[j / 64] >> (j % 64)) % 2 == 1 {
            return j;
        }
    }
    4096
}

// ---- literals

// Where a key stands among the first keys, or how many they are.
fn place(keys: &[u32], count: usize, key: u32) -> usize
    requires { count ≤ length keys.now }
    ensures { result ≡ place_of key (take count keys.now) }
{
    keys[..count]
        .iter()
        .position(|k| *k == key)
        .unwrap_or(count)
}

// The values of row f, a literal, at n and what i stands for.
fn literal_values(
    schema: &[i32],
    f: usize,
    n: usize,
    i: usize,
    keys: &[u32],
    count: usize,
    m: usize,
    out: &mut [u64; 64],
)
    requires { Evaluable schema.now f n keys.now count m × Reached i × IsLiteral schema.now f × (length out.old ≡ 64) }
    ensures { out.new ≡ values_from (take count keys.now) m n (tree (row_at schema.now) f) (unbiased i) }
{
    let held = signed::natural_at(schema, 4 * f) == 2;
    let k = place(keys, count, literal_key(schema, f, n, i));
    if k < count {
        digits(held, m, count - 1 - k, out);
    } else {
        fill(!held, out);
    }
}

// ---- rows

// How many values of i are looked at, of `left`: the first stands for all where no literal on i stands in the body.
fn looked_at(facts: &[u32], body: usize, left: usize) -> usize
    requires { body < 1024 }
    ensures { result ≡ looked_at (get_or facts.now (4 * body + 2) 0) left }
{
    if kept_at(facts, 4 * body + LOOSE) == 0 {
        return if left == 0 { 0 } else { 1 };
    }
    left
}

// The values of row f at n and what i stands for.
#[cycle(values)]
fn formula_values(
    schema: &[i32],
    facts: &[u32],
    f: usize,
    n: usize,
    i: usize,
    keys: &[u32],
    count: usize,
    m: usize,
    out: &mut [u64; 64],
)
    requires { Evaluable schema.now f n keys.now count m × AllKnown (row_at schema.now) facts.now (f + 1) × Reached i × (length out.old ≡ 64) }
    ensures { out.new ≡ values_from (take count keys.now) m n (tree (row_at schema.now) f) (unbiased i) }
{
    let kind = signed::natural_at(schema, 4 * f);
    if kind < 2 {
        fill(kind == 0, out);
        return;
    }
    if kind < 4 {
        literal_values(schema, f, n, i, keys, count, m, out);
        return;
    }
    if 6 <= kind {
        range_values(schema, facts, f, n, keys, count, m, out);
        return;
    }
    let any = kind == 5;
    let a = signed::natural_at(schema, 4 * f + A);
    formula_values(schema, facts, a, n, i, keys, count, m, out);
    if settled(any, out) {
        return;
    }
    let b = signed::natural_at(schema, 4 * f + B);
    let mut right = [0u64; 64];
    formula_values(schema, facts, b, n, i, keys, count, m, &mut right);
    combine(any, out, &right);
}

// The values of row f, an iteration, at n: no i changes them. The values of its body at one i after the other are combined.
#[cycle(values)]
fn range_values(
    schema: &[i32],
    facts: &[u32],
    f: usize,
    n: usize,
    keys: &[u32],
    count: usize,
    m: usize,
    out: &mut [u64; 64],
)
    requires { Evaluable schema.now f n keys.now count m × AllKnown (row_at schema.now) facts.now (f + 1) × (6 ≤ nat (row_at schema.now f).kind) }
    ensures { out.new ≡ values_from (take count keys.now) m n (tree (row_at schema.now) f) (pos 0) }
{
    let any = signed::natural_at(schema, 4 * f) == 7;
    let body = signed::natural_at(schema, 4 * f + A);
    let first = moved(65536, schema, 4 * f + B);
    let left = looked_at(facts, body, range_size(schema, f, n));
    fill(!any, out);
    let mut next = [0u64; 64];
    for k in 0..left {
        formula_values(schema, facts, body, n, first + k, keys, count, m, &mut next);
        combine(any, out, &next);
        if settled(any, out) {
            return;
        }
    }
}

// The least number of an assignment that makes the root true at n, or 2 ^ count where none does.
pub fn first_number(
    schema: &[i32],
    facts: &[u32],
    root: usize,
    n: usize,
    keys: &[u32],
    count: usize,
) -> usize
    requires { Searchable schema.now facts.now root n keys.now count }
    ensures { result ≡ least_or (least_below (λ m. truth (among (numbered (occurring n (tree (row_at schema.now) root)) m)) n (tree (row_at schema.now) root)) (2 ^ count)) (2 ^ count) }
{
    let total = 1usize << count;
    let mut out = [0u64; 64];
    for m in (0..total).step_by(4096) {
        formula_values(schema, facts, root, n, 65536, keys, count, m, &mut out);
        let j = first_digit(&out);
        if j < 4096 {
            return if m + j < total { m + j } else { total };
        }
    }
    total
}
