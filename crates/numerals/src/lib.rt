// Parts of a line: headings; and numbers, the bytes of a field, its digits, and what goes into a lent table.
#![tactic(auto)]

ghost use Rattle.std.specs.Prelude.{◌≡◌, true, ◌+◌, ◌≤◌, pos, length, get_or, drop, set};
ghost use Rattle.stab.specs.Text.{lacks};
ghost use Rattle.numerals.specs.Headings.{after_heading};
ghost use Rattle.numerals.specs.Here.{run_length, run_value};
ghost use Rattle.numerals.specs.Here.{number_here};
ghost use Rattle.signed.specs.Numbers.{signed_of};
ghost use Rattle.numerals.specs.Numerals.{closed_by, natural_at, step_by, kept_by, step_at, kept_of};

// The byte at i, and 256 past the end, which no byte is.
pub fn byte_at(text: &[u8], i: usize) -> usize
    ensures { result ≡ get_or text.now i 256 }
{
    if i < text.len() {
        text[i] as usize
    } else {
        256
    }
}

// The place after a heading's line, if that line stands at a place; 0 if not.
pub fn heading(text: &[u8], at: usize, h: &[u8]) -> usize
    requires { (at ≤ length text.now) × (lacks 10 h.now ≡ true) }
    ensures { result ≡ after_heading h.now text.now at }
{
    if !text[at..].starts_with(h) {
        return 0;
    }
    let e = at + h.len();
    if byte_at(text, e) != 10 {
        return 0;
    }
    e + 1
}

// Digits that were read: the number that they stand for, and the place after them.
#[derive(Clone, Copy)]
pub struct Run {
    pub value: usize,
    pub next: usize,
}

// Up to four more digits from a place on, after one that stands for `first`.
fn digits(text: &[u8], at: usize, first: usize) -> Run
    requires { (at ≤ length text.now) × (first ≤ 9) }
    ensures { (result.value ≡ run_value 4 first (drop at text.now)) × (result.next ≡ at + run_length 4 (drop at text.now)) }
{
    let end = at + 4;
    let mut value = first;
    for next in at..end {
        let b = byte_at(text, next);
        if b < 48 || 57 < b {
            return Run { value, next };
        }
        value = 10 * value + (b - 48);
    }
    Run { value, next: end }
}

// A natural number that is the whole of a field: the place after the field's end, and the space or byte 10 that ends it.
// All 0 where there is no such number.
#[derive(Clone, Copy)]
pub struct Numeral {
    pub value: usize,
    pub next: usize,
    pub end: usize,
}

// The digits that were read are a whole field if a space or byte 10 follows.
fn closed(text: &[u8], run: Run) -> Numeral
    requires { run.next ≤ length text.now }
    ensures { result ≡ closed_by run.value run.next (get_or text.now run.next 256) }
{
    let e = run.next;
    let b = byte_at(text, e);
    if b == 32 {
        return Numeral {
            value: run.value,
            next: e + 1,
            end: b,
        };
    }
    if b == 10 {
        return Numeral {
            value: run.value,
            next: e + 1,
            end: b,
        };
    }
    Numeral {
        value: 0,
        next: 0,
        end: 0,
    }
}

// The natural number that is the whole of the field at a place. Put into the reader of rows, which spends most of its time here.
#[inline(always)]
fn natural_at(text: &[u8], at: usize) -> Numeral
    requires { at ≤ length text.now }
    ensures { result ≡ natural_at text.now at }
{
    let b = byte_at(text, at);
    if b == 48 {
        return closed(
            text,
            Run {
                value: 0,
                next: at + 1,
            },
        );
    }
    if b < 49 {
        return Numeral {
            value: 0,
            next: 0,
            end: 0,
        };
    }
    if 57 < b {
        return Numeral {
            value: 0,
            next: 0,
            end: 0,
        };
    }
    closed(text, digits(text, at + 1, b - 48))
}

// A number goes into a lent table, where there is room for it.
fn put(table: &mut [i32], k: usize, z: i32)
    ensures { table.new ≡ set table.old k z }
{
    if k < table.len() {
        table[k] = z;
    }
}

// A natural number of at most five digits goes into a lent table, where there is room for it.
pub fn put_natural(table: &mut [i32], k: usize, v: usize)
    requires { v ≤ 99999 }
    ensures { table.new ≡ set table.old k (pos v) }
{
    put(table, k, signed::of(v))
}

// What reading a number comes to: none, or one that the line goes on after, or the line's last; and the place to read on from.
#[derive(Clone, Copy)]
pub enum Step {
    Bad,
    More(usize),
    Last(usize),
}

// A number with its sign goes into a lent table, if it was a whole field.
fn keep(n: Numeral, negative: bool, table: &mut [i32], k: usize) -> Step
    requires { n.value ≤ 99999 }
    ensures { (result ≡ step_by n.end n.next) × (table.new ≡ kept_by n.end table.old k (signed_of n.value negative)) }
{
    if n.end == 32 {
        put(table, k, signed::with_sign(n.value, negative));
        return Step::More(n.next);
    }
    if n.end == 10 {
        put(table, k, signed::with_sign(n.value, negative));
        return Step::Last(n.next);
    }
    Step::Bad
}

// The number that is the whole of the field at a place goes into a lent table at k.
pub fn number(text: &[u8], at: usize, table: &mut [i32], k: usize) -> Step
    requires { at ≤ length text.now }
    ensures { (result ≡ step_at text.now at) × (table.new ≡ kept_of table.old k (number_here (drop at text.now))) }
{
    let b = byte_at(text, at);
    if b == 45 {
        let n = natural_at(text, at + 1);
        if n.value == 0 {
            return Step::Bad;
        }
        return keep(n, true, table, k);
    }
    keep(natural_at(text, at), false, table, k)
}
