// The plain rows are written, one wide row after the other. The rows that stand for a wide row and for its negation are kept, two
// numbers a wide row, so that each row looks at its parts' numbers alone.
ghost use Rattle.std.specs.Prelude.{◌≡◌, true, [], ◌∷◌, ℕ, suc, ◌+◌, ◌*◌, ◌<◌, ◌≤◌, leb, pos, length};
ghost use Rattle.stab.specs.Basic.{nat};
ghost use Rattle.stab.specs.Formula.{row_at};
ghost use Rattle.stab.specs.Text.{padded};
ghost use Rattle.formula.specs.Column.{column};
ghost use Rattle.wide.specs.WideFormula.{wide_kind_of, wide_formed};
ghost use Rattle.wide.specs.Plain.{rows_given, start_of, image, row, given, plain_rows, columns};
ghost use Rattle.convert.specs.Emission.{paired, swapped, parts_row, both_rows, six_rows, written, image_kept, image_at, Imaged, Emits, Given};

use formula::kept::kept_at;
use formula::{A, B, C};

// The rows that stand for a wide row and for its negation.
#[derive(Clone, Copy)]
pub struct Stands {
    pub own: usize,
    pub negated: usize,
}

// ---- writing rows

// Row s of a table is written.
fn put(t: &mut [i32], s: usize, kind: usize, a: i32, b: i32, c: i32)
    requires { (kind < 1024) × (4 * s + 3 < length t.old) }
    ensures { t.new ≡ written t.old s (row kind a b c ∷ []) }
{
    let at = 4 * s;
    t[at] = signed::of(kind);
    t[at + A] = a;
    t[at + B] = b;
    t[at + C] = c;
}

// A row with parts f and g.
fn put_parts(t: &mut [i32], s: usize, kind: usize, f: usize, g: usize)
    requires { (kind < 1024) × (f < 1024) × (g < 1024) × (4 * s + 3 < length t.old) }
    ensures { t.new ≡ written t.old s (parts_row kind f g ∷ []) }
{
    put(t, s, kind, signed::of(f), signed::of(g), 0);
}

// A row whose parts are two rows, and one of another kind whose parts are their negations.
fn put_both(t: &mut [i32], s: usize, kind: usize, turned: usize, f: Stands, g: Stands)
    requires kind_bound { (kind < 1024) × (turned < 1024) × (4 * s + 7 < length t.old) }
    requires own_bound { (f.own < 1024) × (f.negated < 1024) × (g.own < 1024) × (g.negated < 1024) }
    ensures { t.new ≡ written t.old s (both_rows kind turned f g) }
{
    put_parts(t, s, kind, f.own, g.own);
    put_parts(t, s + 1, turned, f.negated, g.negated);
}

// What stands for a not.
fn swapped(f: Stands) -> Stands
    ensures { result ≡ swapped f }
{
    Stands {
        own: f.negated,
        negated: f.own,
    }
}

// Two conjunctions and their or, then the same with the right side negated.
fn put_six(t: &mut [i32], s: usize, f: Stands, g: Stands)
    requires s_bound { (s + 6 ≤ 1024) × (4096 ≤ length t.old) }
    requires own_bound { (f.own < 1024) × (f.negated < 1024) × (g.own < 1024) × (g.negated < 1024) }
    ensures { t.new ≡ written t.old s (six_rows s f g) }
{
    put_both(t, s, 4, 4, f, g);
    put_parts(t, s + 2, 5, s, s + 1);
    let h = swapped(g);
    put_both(t, s + 3, 4, 4, f, h);
    put_parts(t, s + 5, 5, s + 3, s + 4);
}

// ---- images

// Two numbers are kept for row r.
fn keep(images: &mut [u32], r: usize, f: Stands)
    requires { (2 * r + 1 < length images.old) × (f.own < 1024) × (f.negated < 1024) }
    ensures { images.new ≡ image_kept images.old r f }
{
    let at = 2 * r;
    images[at] = f.own as u32;
    images[at + 1] = f.negated as u32;
}

// What stands for the row that column k of row r points to, and for its negation.
fn image_of(wide: &[i32], r: usize, k: usize, images: &[u32]) -> Stands
    requires { (r < 1024) × (k < 4) }
    ensures { result ≡ image_at images.now (nat (column (row_at wide.now r) k)) }
{
    let at = 2 * signed::natural_at(wide, 4 * r + k);
    Stands {
        own: kept_at(images, at),
        negated: kept_at(images, at + 1),
    }
}

// ---- what a wide row gives

// The other kind of a pair.
fn paired(k: usize) -> usize
    requires { k < 8 }
    ensures { (result ≡ paired k) × (result < 1024) }
{
    if k % 2 == 0 { k + 1 } else { k - 1 }
}

// A row of kinds 0 to 3, which has no parts.
fn leaf(wide: &[i32], r: usize, k: usize, s: usize, plain: &mut [i32])
    requires { Given wide.now r k s plain.old × (k < 4) }
    ensures { plain.new ≡ written plain.old s (given (row_at wide.now) r) }
{
    let a = signed::at(wide, 4 * r + A);
    let b = signed::at(wide, 4 * r + B);
    let c = signed::at(wide, 4 * r + C);
    put(plain, s, k, a, b, c);
    put(plain, s + 1, paired(k), a, b, c);
}

// Kinds 6 and 7: the body, and the body negated under the other kind, over the same range.
fn iteration(wide: &[i32], r: usize, k: usize, s: usize, images: &[u32], plain: &mut [i32])
    requires { Given wide.now r k s plain.old × (6 ≤ k) × (k < 8) × Imaged (row_at wide.now) images.now r }
    ensures { plain.new ≡ written plain.old s (given (row_at wide.now) r) }
{
    let f = image_of(wide, r, A, images);
    let b = signed::at(wide, 4 * r + B);
    let c = signed::at(wide, 4 * r + C);
    put(plain, s, k, signed::of(f.own), b, c);
    put(plain, s + 1, paired(k), signed::of(f.negated), b, c);
}

// Kinds 4 and 5: both parts, and both negated under the other kind. Kind 9: the left negated or the right, and the left and the
// right negated.
fn junction(wide: &[i32], r: usize, k: usize, s: usize, images: &[u32], plain: &mut [i32])
    requires { Given wide.now r k s plain.old × (4 ≤ k) × (k < 10) × (6 ≤ k → 9 ≤ k) × Imaged (row_at wide.now) images.now r }
    ensures { plain.new ≡ written plain.old s (given (row_at wide.now) r) }
{
    let f = image_of(wide, r, A, images);
    let g = image_of(wide, r, B, images);
    if k < 6 {
        put_both(plain, s, k, paired(k), f, g);
        return;
    }
    let h = swapped(f);
    put_both(plain, s, 5, 4, h, g);
}

// A row of kinds 0 to 7 or 9.
fn two(wide: &[i32], r: usize, k: usize, s: usize, images: &[u32], plain: &mut [i32])
    requires { Given wide.now r k s plain.old × (k < 10) × (k ≡ 8 → ⊥) × Imaged (row_at wide.now) images.now r }
    ensures { plain.new ≡ written plain.old s (given (row_at wide.now) r) }
{
    if k < 4 {
        leaf(wide, r, k, s, plain);
        return;
    }
    if k < 6 {
        junction(wide, r, k, s, images, plain);
        return;
    }
    if k < 8 {
        iteration(wide, r, k, s, images, plain);
        return;
    }
    junction(wide, r, k, s, images, plain);
}

// Kinds 10 and 11: both sides, both negated, and their or; the left with the right negated, the left negated with the right, and
// their or. Kind 11 has the second three first.
fn equivalence(wide: &[i32], r: usize, k: usize, s: usize, images: &[u32], plain: &mut [i32])
    requires { Given wide.now r k s plain.old × (10 ≤ k) × (k < 12) × Imaged (row_at wide.now) images.now r }
    ensures { plain.new ≡ written plain.old s (given (row_at wide.now) r) }
{
    let f = image_of(wide, r, A, images);
    let g = image_of(wide, r, B, images);
    if k == 10 {
        put_six(plain, s, f, g);
        return;
    }
    let h = swapped(g);
    put_six(plain, s, f, h);
}

// ---- every wide row

// How many plain rows a wide row of kind k gives.
fn rows_given(k: usize) -> usize
    ensures { result ≡ rows_given (wide_kind_of (pos k)) }
{
    if k == 8 {
        return 0;
    }
    if k == 10 {
        return 6;
    }
    if k == 11 {
        return 6;
    }
    2
}

// How many plain rows n wide rows give.
pub fn count(wide: &[i32], n: usize) -> usize
    requires { (n ≤ 1024) × ((r : ℕ) → r < n → wide_formed (row_at wide.now) r ≡ true) }
    ensures { result ≡ start_of (row_at wide.now) n }
{
    let mut s = 0;
    for r in 0..n {
        s += rows_given(signed::natural_at(wide, 4 * r));
    }
    s
}

// At most 1,024 rows.
pub fn few(n: usize) -> bool
    ensures { result ≡ leb n 1024 }
{
    n <= 1024
}

// What wide row r gives is written from row s on, and its image kept. The first row after them.
fn step(wide: &[i32], r: usize, s: usize, images: &mut [u32], plain: &mut [i32]) -> usize
    requires { Emits wide.now (suc r) plain.old × (s ≡ start_of (row_at wide.now) r) × Imaged (row_at wide.now) images.old r × (2 * r + 1 < length images.old) }
    ensures value { result ≡ start_of (row_at wide.now) (suc r) }
    ensures imaged { Imaged (row_at wide.now) images.new (suc r) }
    ensures plain_after { plain.new ≡ written plain.old s (given (row_at wide.now) r) }
{
    let k = signed::natural_at(wide, 4 * r);
    if k == 8 {
        let f = swapped(image_of(wide, r, A, images));
        keep(images, r, f);
        return s;
    }
    if k < 10 {
        two(wide, r, k, s, images, plain);
        keep(
            images,
            r,
            Stands {
                own: s,
                negated: s + 1,
            },
        );
        return s + 2;
    }
    equivalence(wide, r, k, s, images, plain);
    keep(
        images,
        r,
        Stands {
            own: s + 2,
            negated: s + 5,
        },
    );
    s + 6
}

// What n wide rows give is written, and their images kept.
fn each(wide: &[i32], n: usize, images: &mut [u32], plain: &mut [i32])
    requires { Emits wide.now n plain.old × (2 * n ≤ length images.old) }
    ensures imaged { Imaged (row_at wide.now) images.new n }
    ensures plain_after { plain.new ≡ written plain.old 0 (plain_rows (row_at wide.now) n) }
{
    let mut s = 0;
    for r in 0..n {
        s = step(wide, r, s, images, plain);
    }
}

// The table is filled with the plain rows of n wide rows, m in number, and 0 past them. The row that stands for a wide row.
pub fn filled(wide: &[i32], n: usize, root: usize, m: usize, plain: &mut [i32]) -> i32
    requires { Emits wide.now n plain.old × (root < n) × (m ≡ start_of (row_at wide.now) n) }
    ensures value { result ≡ pos (image (row_at wide.now) root).own }
    ensures plain_after { plain.new ≡ padded (pos 0) (length plain.old) (columns (plain_rows (row_at wide.now) n)) }
{
    let mut images = [0u32; 2048];
    each(wide, n, &mut images, plain);
    signed::clear(plain, 4 * m);
    signed::of(kept_at(&images, 2 * root))
}
