// What is worked out of each row or node, kept in a lent table, four numbers for each.
ghost use Rattle.std.specs.Prelude.{◌≡◌, ◌+◌, ◌*◌, ◌<◌, ◌^◌, length, get_or};
ghost use Rattle.formula.specs.Kept.{kept};

// What is kept at i, and 0 past the end.
pub fn kept_at(t: &[u32], i: usize) -> usize
    ensures { (result ≡ get_or t.now i 0) × (result < 2 ^ 32) }
{
    if i < t.len() {
        return t[i] as usize;
    }
    0
}

// The same of a table of smaller numbers.
pub fn number_at(t: &[u16], i: usize) -> usize
    ensures { result ≡ get_or t.now i 0 }
{
    if i < t.len() {
        return t[i] as usize;
    }
    0
}

// Four numbers are kept for i.
pub fn keep(t: &mut [u32], i: usize, a: u32, b: u32, c: u32, d: u32)
    requires { 4 * i + 3 < length t.old }
    ensures { t.new ≡ kept t.old i a b c d }
{
    let at = 4 * i;
    t[at] = a;
    t[at + 1] = b;
    t[at + 2] = c;
    t[at + 3] = d;
}
