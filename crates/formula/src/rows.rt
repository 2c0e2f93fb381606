// The pass over formula rows: which are well formed and small enough. What is worked out for a row, its size, its depth and
// the two facts about mixing, is kept in a lent table, four numbers a row, so that each row looks at its parts' numbers alone.
ghost use Rattle.std.specs.Prelude.{◌≡◌, true, ◌+◌, ◌*◌, ◌<◌, ◌≤◌, max, length, pos};
ghost use Rattle.stab.specs.Basic.{nat, below};
ghost use Rattle.stab.specs.Formula.{formula_rows, offset, kind_of, base_of, on_index, tree};
ghost use Rattle.stab.specs.Check.{row_refusal, root_fits};
ghost use Rattle.stab.specs.Finding.{no_refusal};
ghost use Rattle.formula.specs.Cells.{row_of};
ghost use Rattle.formula.specs.Facts.{bit};
ghost use Rattle.formula.specs.Rows.{facts_of, facts_at, both_facts, over_facts, kept_if, judged, constant_judged, literal_judged, pair_judged, body_judged, judged_refusal, kept_judged, Summable, Passed};

use crate::cells::Cells;
use crate::{cells, kept};
use stab::{Refusal, Refused};

// What is worked out for a row. loose and fixed are 1 where a literal on i stands outside an iteration, and where a literal
// not on i, or an iteration, stands in it; else 0.
#[derive(Clone, Copy)]
pub struct Facts {
    pub size: u32,
    pub depth: u32,
    pub loose: u32,
    pub fixed: u32,
}

// Their places among the four that are kept.
pub const SIZE: usize = 0;

pub const DEPTH: usize = 1;

pub const LOOSE: usize = 2;

pub const FIXED: usize = 3;

// ---- columns

// z is one of 0 .. m - 1.
pub fn below(m: usize, z: i32) -> bool
    ensures { result ≡ below m z }
{
    if 0 < signed::under(z) {
        return false;
    }
    signed::natural(z) < m
}

// z is one of -9999..9999.
fn is_offset(z: i32) -> bool
    ensures { result ≡ offset z }
{
    if 9999 < signed::under(z) {
        return false;
    }
    signed::natural(z) <= 9999
}

// A number of the same kind as z, 0..7 where the kind is known.
fn kind_of(z: i32) -> usize
    ensures { kind_of (pos result) ≡ kind_of z }
{
    if 0 < signed::under(z) {
        return 8;
    }
    signed::natural(z)
}

// 1 where a literal with this b is on i.
fn on_index(b: i32) -> u32
    ensures { result ≡ bit (on_index (base_of b)) }
{
    if signed::equal(b, 0) {
        return 0;
    }
    if signed::equal(b, 1) {
        return 0;
    }
    1
}

// ---- what is kept

// The four numbers that are kept for row r.
pub fn known(facts: &[u32], r: usize) -> Facts
    requires { 4 * r + 3 < length facts.now }
    ensures { result ≡ facts_at facts.now r }
{
    let at = 4 * r;
    Facts {
        size: facts[at + SIZE],
        depth: facts[at + DEPTH],
        loose: facts[at + LOOSE],
        fixed: facts[at + FIXED],
    }
}

fn larger(a: u32, b: u32) -> u32
    ensures { result ≡ max a b }
{
    if a < b { b } else { a }
}

// The numbers of a formula with two parts, by those of its parts.
fn both(f: Facts, g: Facts) -> Facts
    requires { (f.size ≤ 4096) × (g.size ≤ 4096) × (f.depth ≤ 64) × (g.depth ≤ 64) }
    ensures { result ≡ both_facts f g }
{
    Facts {
        size: 1 + f.size + g.size,
        depth: 1 + larger(f.depth, g.depth),
        loose: larger(f.loose, g.loose),
        fixed: larger(f.fixed, g.fixed),
    }
}

// Those of an iteration, by its body's.
fn over(f: Facts) -> Facts
    requires { (f.size ≤ 4096) × (f.depth ≤ 64) }
    ensures { result ≡ over_facts f }
{
    Facts {
        size: 1 + f.size,
        depth: 1 + f.depth,
        loose: 0,
        fixed: 1,
    }
}

// ---- one row

// A row is true or false: a, b, c are 0.
pub fn constant(w: Cells) -> Option<Facts>
    ensures { result ≡ constant_judged (row_of w) }
{
    if !signed::equal(w.a, 0) {
        return None;
    }
    if !signed::equal(w.b, 0) {
        return None;
    }
    if !signed::equal(w.c, 0) {
        return None;
    }
    Some(Facts {
        size: 1,
        depth: 1,
        loose: 0,
        fixed: 0,
    })
}

// A literal: a is 0..255, b 0..2, c -9999..9999.
pub fn literal(w: Cells) -> Option<Facts>
    ensures { result ≡ literal_judged (row_of w) }
{
    if !below(256, w.a) {
        return None;
    }
    if !below(3, w.b) {
        return None;
    }
    if !is_offset(w.c) {
        return None;
    }
    let loose = on_index(w.b);
    Some(Facts {
        size: 1,
        depth: 1,
        loose,
        fixed: 1 - loose,
    })
}

// The numbers of the row before r that z points to.
pub fn part(r: usize, z: i32, facts: &[u32]) -> Facts
    requires { (r < 1024) × (below r z ≡ true) × Summable facts.now r }
    ensures value { result ≡ facts_at facts.now (nat z) }
    ensures size_bound { (result.size ≤ 4096) × (result.depth ≤ 64) }
{
    known(facts, signed::natural(z))
}

// A row with two parts: a and b are smaller rows, c is 0, and the parts do not mix.
pub fn junction(w: Cells, r: usize, facts: &[u32]) -> Option<Facts>
    requires { (r < 1024) × Summable facts.now r }
    ensures { result ≡ pair_judged r (row_of w) facts.now }
{
    if !below(r, w.a) {
        return None;
    }
    if !below(r, w.b) {
        return None;
    }
    if !signed::equal(w.c, 0) {
        return None;
    }
    let a = part(r, w.a, facts);
    let b = part(r, w.b, facts);
    let f = both(a, b);
    if f.loose == 0 {
        return Some(f);
    }
    if f.fixed == 0 {
        return Some(f);
    }
    None
}

// An iteration: a is a smaller row that is a body, b and c are -9999..9999.
pub fn iteration(w: Cells, r: usize, facts: &[u32]) -> Option<Facts>
    requires { (r < 1024) × Summable facts.now r }
    ensures { result ≡ body_judged r (row_of w) facts.now }
{
    if !below(r, w.a) {
        return None;
    }
    if !is_offset(w.b) {
        return None;
    }
    if !is_offset(w.c) {
        return None;
    }
    let f = part(r, w.a, facts);
    if f.fixed == 0 {
        return Some(over(f));
    }
    None
}

// Row r, judged by its kind.
fn row(schema: &[i32], s: usize, proof: &[i32], r: usize, facts: &[u32]) -> Option<Facts>
    requires r_bound { r < 1024 }
    requires passed { Passed (formula_rows schema.now s proof.now) facts.now r }
    ensures { result ≡ judged (formula_rows schema.now s proof.now) r }
{
    let w = cells::of_row(schema, s, proof, r);
    let k = kind_of(w.kind);
    if k < 2 {
        return constant(w);
    }
    if k < 4 {
        return literal(w);
    }
    if k < 6 {
        return junction(w, r, facts);
    }
    if k < 8 {
        return iteration(w, r, facts);
    }
    None
}

// ---- one row more

// What is found of row r, which was judged so; its numbers are kept where that is nothing.
pub fn sized(row: Option<Facts>, r: usize, facts: &mut [u32]) -> Result<(), Refused>
    requires { 4 * r + 3 < length facts.old }
    ensures value { result ≡ judged_refusal row r }
    ensures facts_after { facts.new ≡ kept_judged row facts.old r }
{
    let Some(f) = row else {
        return Err(Refusal::IllFormed.at(r));
    };
    if 4096 < f.size {
        return Err(Refusal::TooLarge.at(r));
    }
    if 64 < f.depth {
        return Err(Refusal::TooLarge.at(r));
    }
    kept::keep(facts, r, f.size, f.depth, f.loose, f.fixed);
    Ok(())
}

// What is found at row r; its numbers are kept where that is nothing.
pub fn step(
    schema: &[i32],
    s: usize,
    proof: &[i32],
    r: usize,
    facts: &mut [u32],
) -> Result<(), Refused>
    requires r_bound { (r < 1024) × (4 * r + 3 < length facts.old) }
    requires passed { Passed (formula_rows schema.now s proof.now) facts.old r }
    ensures value { result ≡ row_refusal (formula_rows schema.now s proof.now) r }
    ensures passed_2 { row_refusal (formula_rows schema.now s proof.now) r ≡ no_refusal → Passed (formula_rows schema.now s proof.now) facts.new (r + 1) }
    ensures facts_after { facts.new ≡ kept_if (row_refusal (formula_rows schema.now s proof.now) r) facts.old r (facts_of (tree (formula_rows schema.now s proof.now) r)) }
{
    let found = row(schema, s, proof, r, facts);
    sized(found, r, facts)
}

// ---- the root

// The root is one of s schema rows, and the least value is 0..9999.
pub fn root_fits(s: usize, root: i32, least: i32) -> bool
    ensures { result ≡ root_fits s root least }
{
    if !below(s, root) {
        return false;
    }
    below(10000, least)
}
