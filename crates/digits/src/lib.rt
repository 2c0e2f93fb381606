// Numbers in decimal: how long they are, and their digits written into the front of an output.
#![tactic(auto)]

ghost use Rattle.std.specs.Prelude.{◌≡◌, true, ◌≤◌, length};
ghost use Rattle.stab.specs.Text.{digits_n, decimal, five_digits};
ghost use Rattle.digits.specs.Over.{over};

// How many digits v has, at most five.
fn digit_count(v: usize) -> usize
    ensures { result ≡ length (digits_n 4 v) }
{
    if v < 10 {
        return 1;
    }
    if v < 100 {
        return 2;
    }
    if v < 1000 {
        return 3;
    }
    if v < 10000 {
        return 4;
    }
    5
}

// The digits of v, from the last to the first.
fn put_digits(out: &mut [u8], v: usize) -> usize
    requires { (v ≤ 99999) × (length (digits_n 4 v) ≤ length out.old) }
    ensures { (result ≡ length (digits_n 4 v)) × (out.new ≡ over (digits_n 4 v) out.old) }
{
    let n = digit_count(v);
    let mut rest = v;
    for i in (0..n).rev() {
        out[i] = (rest % 10) as u8 + b'0';
        rest /= 10;
    }
    n
}

// A number of at most five digits can be written.
pub fn fits(z: i32) -> bool
    ensures { result ≡ five_digits z }
{
    signed::natural(z) <= 99999 && signed::under(z) <= 99999
}

// How many bytes it takes.
pub fn width(z: i32) -> usize
    ensures { result ≡ length (decimal z) }
{
    let below = signed::under(z);
    if below == 0 {
        return digit_count(signed::natural(z));
    }
    1 + digit_count(below)
}

// The number, written.
pub fn put_number(out: &mut [u8], z: i32) -> usize
    requires { (five_digits z ≡ true) × (length (decimal z) ≤ length out.old) }
    ensures { (result ≡ length (decimal z)) × (out.new ≡ over (decimal z) out.old) }
{
    let below = signed::under(z);
    if below == 0 {
        return put_digits(out, signed::natural(z));
    }
    out[0] = b'-';
    1 + put_digits(&mut out[1..], below)
}
