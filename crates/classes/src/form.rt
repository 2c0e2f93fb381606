// The numbers of one row, by what is kept for smaller rows.
ghost use Rattle.std.specs.Prelude.{◌≡◌, true, ◌+◌, ◌*◌, ◌<◌, ◌≤◌, neg_ℤ, length, get_or};
ghost use Rattle.std.proofs.Math.Option.{some};
ghost use Rattle.stab.specs.Basic.{nat};
ghost use Rattle.stab.specs.Formula.{offset};
ghost use Rattle.formula.specs.Cells.{row_of};
ghost use Rattle.classes.specs.Class.{shift_code};
ghost use Rattle.classes.specs.Key.{smaller, kept_code, literal_form, junction_form, iteration_form, FormedAt, kept_form};

use crate::held::held_at;
use formula::cells::Cells;

// The shift, 0 where there is none; the leading part; and the two numbers that, with the kind, decide the class.
#[derive(Clone, Copy)]
pub struct Form {
    pub shift: usize,
    pub lead: usize,
    pub low: usize,
    pub high: usize,
}

// A column as a shift.
fn raised(z: i32) -> usize
    requires { offset z ≡ true }
    ensures { result ≡ shift_code (some z) }
{
    signed::natural(z) + 10000 - signed::under(z)
}

// The same of what it is taken from 0.
fn mirrored(z: i32) -> usize
    requires { offset z ≡ true }
    ensures { result ≡ shift_code (some (neg_ℤ z)) }
{
    signed::under(z) + 10000 - signed::natural(z)
}

fn smaller(p: usize, q: usize) -> usize
    ensures { result ≡ smaller p q }
{
    if p == 0 {
        return q;
    }
    if q == 0 {
        return p;
    }
    if p <= q { p } else { q }
}

// The code of a part a in a row whose shift is m.
fn code(forms: &[u32], a: usize, m: usize) -> usize
    requires a_bound { (a < 1024) × (4 * a + 3 < length forms.now) }
    requires m_bound { 1 ≤ get_or forms.now (4 * a + 1) 0 → m ≤ get_or forms.now (4 * a + 1) 0 }
    ensures { result ≡ kept_code forms.now m a }
{
    let class = held_at(forms, 4 * a);
    let shift = held_at(forms, 4 * a + 1);
    if shift == 0 {
        return class + 1024 * 32767;
    }
    class + 1024 * (shift - m)
}

fn literal(w: Cells, r: usize) -> Form
    requires { offset w.c ≡ true }
    ensures { result ≡ literal_form r (row_of w) }
{
    let symbol = signed::natural(w.a);
    let added = raised(w.c);
    if signed::natural(w.b) == 0 {
        return Form {
            shift: 0,
            lead: r,
            low: symbol,
            high: added,
        };
    }
    Form {
        shift: added,
        lead: r,
        low: symbol,
        high: 0,
    }
}

// An and or an or: the parts' codes, in order.
fn junction(w: Cells, forms: &[u32]) -> Form
    requires { (nat w.a < 1024) × (nat w.b < 1024) × (4 * nat w.a + 3 < length forms.now) × (4 * nat w.b + 3 < length forms.now) }
    ensures { result ≡ junction_form (row_of w) forms.now }
{
    let a = signed::natural(w.a);
    let b = signed::natural(w.b);
    let shift = smaller(held_at(forms, 4 * a + 1), held_at(forms, 4 * b + 1));
    let left = code(forms, a, shift);
    let right = code(forms, b, shift);
    if left <= right {
        return Form {
            shift,
            lead: a,
            low: left,
            high: right,
        };
    }
    Form {
        shift,
        lead: b,
        low: right,
        high: left,
    }
}

// An iteration: its body's class and shift, and where its range starts.
fn iteration(w: Cells, r: usize, forms: &[u32]) -> Form
    requires { (nat w.a < 1024) × (offset w.b ≡ true) × (offset w.c ≡ true) × (4 * nat w.a + 3 < length forms.now) }
    ensures { result ≡ iteration_form r (row_of w) forms.now }
{
    let body = signed::natural(w.a);
    let class = held_at(forms, 4 * body);
    let shift = held_at(forms, 4 * body + 1);
    let low = class + 1024 * shift;
    let high = raised(w.b);
    Form {
        shift: mirrored(w.c),
        lead: r,
        low,
        high,
    }
}

// Those of row r, whose columns are w and whose kind is given.
pub fn of_row(w: Cells, r: usize, kind: usize, forms: &[u32]) -> Form
    requires { (r < 1024) × (kind ≡ nat w.kind) × FormedAt r (row_of w) × (4 * r ≤ length forms.now) }
    ensures { result ≡ kept_form r (row_of w) forms.now }
{
    if kind < 2 {
        return Form {
            shift: 0,
            lead: r,
            low: 0,
            high: 0,
        };
    }
    if kind < 4 {
        return literal(w, r);
    }
    if kind < 6 {
        return junction(w, forms);
    }
    iteration(w, r, forms)
}
