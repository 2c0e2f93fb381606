// When two formulas are alike, one of them lowered or an instance, found by going down the two side by side.
ghost use Rattle.std.specs.Prelude.{◌≡◌, false, ℕ, ◌<◌, ◌≤◌, ◌^◌, eqb, pos, ◌-ℤ◌, length, if◌then◌else◌};
ghost use Rattle.stab.specs.Basic.{nat};
ghost use Rattle.stab.specs.Formula.{formula_rows, tree, loose};
ghost use Rattle.stab.specs.Alike.{lower, instance, alike};
ghost use Rattle.formula.specs.Facts.{AllKnown};
ghost use Rattle.classes.specs.Class.{ground, Ready};
ghost use Rattle.classes.specs.Agreed.{Remembers};

use crate::agreed::{is_known, remember};
use crate::numbers::{literals_agree, ranges_agree, shifts_fit};
use formula::cells::Cells;
use formula::kept::kept_at;
use formula::rows::LOOSE;
use formula::{A, C, cells, natural_in, under_in};

// The part of a row with the columns w that part p is not.
fn besides(w: Cells, p: usize) -> usize
    ensures { result ≡ (if eqb p (nat w.a) then nat w.b else nat w.a) }
{
    let left = signed::natural(w.a);
    if p == left {
        return signed::natural(w.b);
    }
    left
}

// Row g is alike to row f lowered by k = up - down, each literal on i outside an iteration taken for one on n. The two are gone
// down side by side, both parts of each and and or, and bodies, which are not lowered; the first row number falls at each part.
// The leading part of one meets that of the other.
#[cycle(agreement)]
fn gone_down(
    schema: &[i32],
    s: usize,
    proof: &[i32],
    forms: &[u32],
    up: usize,
    down: usize,
    f: usize,
    g: usize,
    agreed: &mut [u32],
) -> bool
    requires up_bound { (up < 2 ^ 32) × (down < 2 ^ 32) }
    requires by_index { (n : ℕ) × (f < n) × (g < n) × Ready (formula_rows schema.now s proof.now) forms.now n × (n ≤ length agreed.old) }
    requires remembers { Remembers (formula_rows schema.now s proof.now) agreed.old }
    ensures value { result ≡ alike (lower (pos up -ℤ pos down) (ground (tree (formula_rows schema.now s proof.now) f))) (ground (tree (formula_rows schema.now s proof.now) g)) }
    ensures remembers_2 { Remembers (formula_rows schema.now s proof.now) agreed.new }
{
    let x = cells::of_row(schema, s, proof, f);
    let y = cells::of_row(schema, s, proof, g);
    let kind = signed::natural(x.kind);
    if kind != signed::natural(y.kind) {
        return false;
    }
    if kind < 2 {
        return true;
    }
    if kind < 4 {
        return literals_agree(x, y, up, down);
    }
    if kind < 6 {
        let lead = kept_at(forms, 4 * f + 2);
        let twin = kept_at(forms, 4 * g + 2);
        if !agrees(schema, s, proof, forms, up, down, lead, twin, agreed) {
            return false;
        }
        let other = besides(x, lead);
        let other_twin = besides(y, twin);
        return agrees(schema, s, proof, forms, up, down, other, other_twin, agreed);
    }
    if !ranges_agree(x, y, up, down) {
        return false;
    }
    let body = signed::natural(x.a);
    let body_twin = signed::natural(y.a);
    agrees(schema, s, proof, forms, 0, 0, body, body_twin, agreed)
}

// The same; rows that are found to agree are remembered.
#[cycle(agreement)]
fn agrees_anew(
    schema: &[i32],
    s: usize,
    proof: &[i32],
    forms: &[u32],
    up: usize,
    down: usize,
    f: usize,
    g: usize,
    agreed: &mut [u32],
) -> bool
    requires up_bound { (up < 2 ^ 32) × (down < 2 ^ 32) }
    requires by_index { (n : ℕ) × (f < n) × (g < n) × Ready (formula_rows schema.now s proof.now) forms.now n × (n ≤ length agreed.old) }
    requires remembers { Remembers (formula_rows schema.now s proof.now) agreed.old }
    ensures value { result ≡ alike (lower (pos up -ℤ pos down) (ground (tree (formula_rows schema.now s proof.now) f))) (ground (tree (formula_rows schema.now s proof.now) g)) }
    ensures remembers_2 { Remembers (formula_rows schema.now s proof.now) agreed.new }
{
    if !gone_down(schema, s, proof, forms, up, down, f, g, agreed) {
        return false;
    }
    remember(agreed, f, g);
    true
}

// The same; rows that are remembered are not gone down again.
#[cycle(agreement)]
fn agrees(
    schema: &[i32],
    s: usize,
    proof: &[i32],
    forms: &[u32],
    up: usize,
    down: usize,
    f: usize,
    g: usize,
    agreed: &mut [u32],
) -> bool
    requires up_bound { (up < 2 ^ 32) × (down < 2 ^ 32) }
    requires by_index { (n : ℕ) × (f < n) × (g < n) × Ready (formula_rows schema.now s proof.now) forms.now n × (n ≤ length agreed.old) }
    requires remembers { Remembers (formula_rows schema.now s proof.now) agreed.old }
    ensures value { result ≡ alike (lower (pos up -ℤ pos down) (ground (tree (formula_rows schema.now s proof.now) f))) (ground (tree (formula_rows schema.now s proof.now) g)) }
    ensures remembers_2 { Remembers (formula_rows schema.now s proof.now) agreed.new }
{
    if is_known(forms, agreed, up, down, f, g) {
        return true;
    }
    agrees_anew(schema, s, proof, forms, up, down, f, g, agreed)
}

// Row x is alike to row z lowered by k. Both are outer. Rows that are not are told apart by what is kept of them.
pub fn is_lowered(
    schema: &[i32],
    s: usize,
    proof: &[i32],
    forms: &[u32],
    k: i32,
    z: usize,
    x: usize,
    agreed: &mut [u32],
) -> bool
    requires by_index { (n : ℕ) × (z < n) × (x < n) × Ready (formula_rows schema.now s proof.now) forms.now n × (n ≤ length agreed.old) }
    requires z_value { (loose (tree (formula_rows schema.now s proof.now) z) ≡ false) × (loose (tree (formula_rows schema.now s proof.now) x) ≡ false) }
    requires remembers { Remembers (formula_rows schema.now s proof.now) agreed.old }
    ensures value { result ≡ alike (lower k (tree (formula_rows schema.now s proof.now) z)) (tree (formula_rows schema.now s proof.now) x) }
    ensures remembers_2 { Remembers (formula_rows schema.now s proof.now) agreed.new }
{
    if kept_at(forms, 4 * z) != kept_at(forms, 4 * x) {
        return false;
    }
    let up = signed::natural(k);
    let down = signed::under(k);
    if !shifts_fit(forms, up, down, z, x) {
        return false;
    }
    agrees(schema, s, proof, forms, up, down, z, x, agreed)
}

// Row z is alike to the instance at n - c of the body of the iteration in row `on`. An instance is outer, so that a row in
// which a literal on i stands outside an iteration is not. Mostly the two meet for the first time: what is remembered is asked
// for their parts alone.
pub fn is_instance(
    schema: &[i32],
    s: usize,
    proof: &[i32],
    facts: &[u32],
    forms: &[u32],
    on: usize,
    z: usize,
    agreed: &mut [u32],
) -> bool
    requires by_index { (n : ℕ) × (on < n) × (z < n) × Ready (formula_rows schema.now s proof.now) forms.now n × AllKnown (formula_rows schema.now s proof.now) facts.now n × (n ≤ length agreed.old) }
    requires bound { 6 ≤ nat (formula_rows schema.now s proof.now on).kind }
    requires remembers { Remembers (formula_rows schema.now s proof.now) agreed.old }
    ensures value { result ≡ alike (instance (formula_rows schema.now s proof.now on).c (tree (formula_rows schema.now s proof.now) (nat (formula_rows schema.now s proof.now on).a))) (tree (formula_rows schema.now s proof.now) z) }
    ensures remembers_2 { Remembers (formula_rows schema.now s proof.now) agreed.new }
{
    if kept_at(facts, 4 * z + LOOSE) != 0 {
        return false;
    }
    let up = natural_in(schema, s, proof, on, C);
    let down = under_in(schema, s, proof, on, C);
    agrees_anew(
        schema,
        s,
        proof,
        forms,
        up,
        down,
        natural_in(schema, s, proof, on, A),
        z,
        agreed,
    )
}
