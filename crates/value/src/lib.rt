// The value of a formula under a list of true pairs, at up to 63 numbers at once.
#![tactic(auto)]

ghost use Rattle.std.specs.Prelude.{◌≡◌, ◌+◌, ◌<◌, ◌≤◌, ◌^◌, pos, ◌-ℤ◌, eqb};
ghost use Rattle.stab.specs.Formula.{row_at, base_of, tree};
ghost use Rattle.stab.specs.Meaning.{base, range_size, over, value};
ghost use Rattle.stab.specs.Model.{listed};
ghost use Rattle.pairs.specs.Index.{unbiased, Reached, ReachedRange, ReachedWord};
ghost use Rattle.pairs.specs.Reading.{Readable, IsLiteral, Iterates, op_of, symbol_value};
ghost use Rattle.pairs.specs.Word.{word, word_at, combined_word, whole_word};

use formula::{A, B, C};
use pairs::{listed_word, moved};

// All of `width` digits.
fn ones(width: usize) -> u64
    requires { width ≤ 63 }
    ensures { result + 1 ≡ 2 ^ width }
{
    (1u64 << width) - 1
}

// The same value at each.
fn same(held: bool, width: usize) -> u64
    requires { width ≤ 63 }
    ensures { result ≡ word (λ j. held) width }
{
    if held { ones(width) } else { 0 }
}

// A word that stays as it is, whatever it is combined with: by or where `any`, else by and.
fn settled(any: bool, w: u64, width: usize) -> bool
    requires { width ≤ 63 }
    ensures { result ≡ eqb w (word (λ j. any) width) }
{
    w == same(any, width)
}

// Two words, combined: by or where `any`, else by and.
pub fn combined(any: bool, v: u64, w: u64) -> u64
    ensures { result ≡ combined_word any v w }
{
    if any { v | w } else { v & w }
}

// The values of one word, combined.
fn whole_word(any: bool, w: u64, width: usize) -> bool
    requires { width ≤ 63 }
    ensures { result ≡ whole_word any w width }
{
    if any {
        return w != 0;
    }
    w == ones(width)
}

// What a literal's c is added to, by column b of row f: nothing, n, or what i stands for.
pub fn base_of(schema: &[i32], f: usize, n: usize, i: usize) -> usize
    requires { (f < 1024) × (n ≤ 9999) × Reached i }
    ensures { Reached result × (unbiased result ≡ base n (unbiased i) (base_of (row_at schema.now f).b)) }
{
    if signed::is_at(schema, 4 * f + B, 0) {
        return 65536;
    }
    if signed::is_at(schema, 4 * f + B, 1) {
        return 65536 + n;
    }
    i
}

// The values of the symbol of row f, a literal, at n and i, i + 1, ..: one look-up where i does not matter.
fn symbol_word(
    schema: &[i32],
    f: usize,
    n: usize,
    i: usize,
    width: usize,
    pairs: &[i32],
    count: usize,
) -> u64
    requires { Readable schema.now f n pairs.now count × ReachedWord i width × IsLiteral schema.now f }
    ensures { result ≡ word_at (symbol_value (listed pairs.now count) n (row_at schema.now f)) i width }
{
    let x = moved(base_of(schema, f, n, i), schema, 4 * f + C);
    let symbol = signed::natural_at(schema, 4 * f + A);
    if signed::natural_at(schema, 4 * f + B) < 2 {
        return same(listed_word(pairs, count, symbol, x, 1) == 1, width);
    }
    listed_word(pairs, count, symbol, x, width)
}

// The values of row f, a literal, at n and i, i + 1, ..
fn literal_value(
    schema: &[i32],
    f: usize,
    n: usize,
    i: usize,
    width: usize,
    pairs: &[i32],
    count: usize,
) -> u64
    requires { Readable schema.now f n pairs.now count × ReachedWord i width × IsLiteral schema.now f }
    ensures { result ≡ word_at (value (listed pairs.now count) n (tree (row_at schema.now) f)) i width }
{
    let w = symbol_word(schema, f, n, i, width, pairs, count);
    if signed::natural_at(schema, 4 * f) == 2 {
        return w;
    }
    ones(width) - w
}

// How many i there are from b up to n - c, for the columns of row f, an iteration.
pub fn range_size(schema: &[i32], f: usize, n: usize) -> usize
    requires { (f < 1024) × (n ≤ 9999) × Iterates schema.now f }
    ensures { result ≡ range_size (row_at schema.now f).b (pos n -ℤ (row_at schema.now f).c) }
{
    let up = n + 1 + signed::under_at(schema, 4 * f + B) + signed::under_at(schema, 4 * f + C);
    let down = signed::natural_at(schema, 4 * f + B) + signed::natural_at(schema, 4 * f + C);
    if up < down { 0 } else { up - down }
}

// The values of row f at n and i, i + 1, .. i + (width - 1).
#[cycle(values)]
pub fn formula_value(
    schema: &[i32],
    f: usize,
    n: usize,
    i: usize,
    width: usize,
    pairs: &[i32],
    count: usize,
) -> u64
    requires { Readable schema.now f n pairs.now count × ReachedWord i width }
    ensures { result ≡ word_at (value (listed pairs.now count) n (tree (row_at schema.now) f)) i width }
{
    let kind = signed::natural_at(schema, 4 * f);
    if kind < 2 {
        return same(kind == 0, width);
    }
    if kind < 4 {
        return literal_value(schema, f, n, i, width, pairs, count);
    }
    let a = signed::natural_at(schema, 4 * f + A);
    if 6 <= kind {
        let first = moved(65536, schema, 4 * f + B);
        let left = range_size(schema, f, n);
        let held = range_value(schema, a, n, kind == 7, first, left, pairs, count);
        return same(held, width);
    }
    let any = kind == 5;
    let v = formula_value(schema, a, n, i, width, pairs, count);
    if settled(any, v, width) {
        return v;
    }
    let b = signed::natural_at(schema, 4 * f + B);
    combined(any, v, formula_value(schema, b, n, i, width, pairs, count))
}

// The values of the body at `first` and the `left - 1` numbers after it, combined: by or where `any`, else by and. A long
// range is halved at each call, so that few calls are open at once however long it is.
#[cycle(values)]
fn range_value(
    schema: &[i32],
    body: usize,
    n: usize,
    any: bool,
    first: usize,
    left: usize,
    pairs: &[i32],
    count: usize,
) -> bool
    requires { Readable schema.now body n pairs.now count × ReachedRange first left }
    ensures { result ≡ over (op_of any) (value (listed pairs.now count) n (tree (row_at schema.now) body)) (unbiased first) left }
{
    if left == 0 {
        return !any;
    }
    if left <= 63 {
        let w = formula_value(schema, body, n, first, left, pairs, count);
        return whole_word(any, w, left);
    }
    let half = left / 2;
    let held = range_value(schema, body, n, any, first, half, pairs, count);
    if held == any {
        return held;
    }
    range_value(
        schema,
        body,
        n,
        any,
        first + half,
        left - half,
        pairs,
        count,
    )
}
