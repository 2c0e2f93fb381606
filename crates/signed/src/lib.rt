// The one leaf with signed numbers: what stands in a lent table, taken apart into naturals; numbers made of naturals; a lent
// table cleared.
#![tactic(auto)]

ghost use Rattle.std.specs.Prelude.{◌≡◌, get_or, length, pos, negsuc, neg_ℤ, ◌-ℤ◌, ◌<◌, ◌≤◌, ◌^◌};
ghost use Rattle.std.specs.Int.Signed.{lt_z};
ghost use Rattle.stab.specs.Basic.{eq_z, nat};
ghost use Rattle.stab.specs.Check.{holds as tableHolds};
ghost use Rattle.signed.specs.Numbers.{signed_of, rank_of, cleared};

// What stands at i in a lent table, and 0 past its end.
pub fn at(t: &[i32], i: usize) -> i32
    ensures { result ≡ get_or t.now i (pos 0) }
{
    if i < t.len() { t[i] } else { 0 }
}

// A whole number as a natural number, 0 where it is negative.
pub fn natural(z: i32) -> usize
    ensures { result ≡ nat z }
{
    if z < 0 { 0 } else { z as usize }
}

// A natural number as a whole number.
pub fn of(n: usize) -> i32
    requires { n < 2 ^ 31 }
    ensures { result ≡ pos n }
{
    n as i32
}

// A natural number of at most five digits with its sign.
pub fn with_sign(v: usize, negative: bool) -> i32
    requires { v ≤ 99999 }
    ensures { result ≡ signed_of v negative }
{
    let z = v as i32;
    if negative { 0 - z } else { z }
}

// -1 - z, which is a number of the type for every z.
fn mirrored(z: i32) -> i32
    ensures { result ≡ (negsuc 0 -ℤ z) }
{
    -1 - z
}

// How far a whole number lies below 0.
pub fn under(z: i32) -> usize
    ensures { result ≡ nat (neg_ℤ z) }
{
    if z < 0 { natural(mirrored(z)) + 1 } else { 0 }
}

// How far a whole number lies above the least of 32 bits.
pub fn rank(z: i32) -> usize
    ensures { (result ≡ rank_of z) × (result < 2 ^ 32) }
{
    (z as i64 + 2147483648) as usize
}

// The two are the same number.
pub fn equal(a: i32, b: i32) -> bool
    ensures { result ≡ eq_z a b }
{
    a == b
}

// The first is less than the second.
pub fn less(a: i32, b: i32) -> bool
    ensures { result ≡ lt_z a b }
{
    a < b
}

// The natural part of what stands at i, and how large it can be.
pub fn natural_at(t: &[i32], i: usize) -> usize
    ensures { (result ≡ nat (get_or t.now i (pos 0))) × (result < 2 ^ 32) }
{
    natural(at(t, i))
}

// How far below 0 it lies.
pub fn under_at(t: &[i32], i: usize) -> usize
    ensures { result ≡ nat (neg_ℤ (get_or t.now i (pos 0))) }
{
    under(at(t, i))
}

// It is z.
pub fn is_at(t: &[i32], i: usize, z: i32) -> bool
    ensures { result ≡ eq_z (get_or t.now i (pos 0)) z }
{
    equal(at(t, i), z)
}

// What stands at i in one table and at j in another is the same number.
pub fn same_at(t: &[i32], i: usize, u: &[i32], j: usize) -> bool
    ensures { result ≡ eq_z (get_or t.now i (pos 0)) (get_or u.now j (pos 0)) }
{
    equal(at(t, i), at(u, j))
}

// A table holds n rows of w numbers.
pub fn holds(t: &[i32], w: usize, n: usize) -> bool
    requires { 0 < w }
    ensures { result ≡ tableHolds t.now w n }
{
    n <= t.len() / w
}

// A lent table is 0 from a place on.
pub fn clear(table: &mut [i32], from: usize)
    requires { from ≤ length table.old }
    ensures { table.new ≡ cleared table.old from }
{
    table[from..].fill(0);
}
