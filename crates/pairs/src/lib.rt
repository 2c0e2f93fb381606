// The pairs of a model: in order and range, and the values that they give a symbol at up to 63 numbers, as the digits of
// one. An index can be negative: it is carried as a natural number 65536 above it (specs/Index.antt), so that no arithmetic
// here is signed.
#![tactic(auto)]

ghost use Rattle.std.specs.Prelude.{◌≡◌, ◌+◌, ◌<◌, ◌≤◌, ◌^◌, pos, neg_ℤ, ◌+ℤ◌, true, get_or};
ghost use Rattle.stab.specs.Basic.{◌and◌, within, scan};
ghost use Rattle.stab.specs.Model.{listed, pair_in_range, pair_follows, pair_refusal};
ghost use Rattle.pairs.specs.Index.{unbiased, Movable};
ghost use Rattle.pairs.specs.Pairs.{AllInRange, Sorted, key_at, keys_below};
ghost use Rattle.pairs.specs.Word.{word_at};

use stab::{Refusal, Refused};

// What x stands for, and what stands at i in a lent table, added up.
pub fn moved(x: usize, t: &[i32], i: usize) -> usize
    requires { Movable x (get_or t.now i (pos 0)) }
    ensures { unbiased result ≡ (unbiased x +ℤ get_or t.now i (pos 0)) }
{
    x + signed::natural_at(t, i) - signed::under_at(t, i)
}

// The key of pair k.
fn key_at(pairs: &[i32], k: usize) -> usize
    requires { (k < 2 ^ 32) × (pair_in_range pairs.now k ≡ true) }
    ensures { result ≡ key_at pairs.now k }
{
    signed::natural_at(pairs, 2 * k) * 131072 + moved(65536, pairs, 2 * k + 1)
}

// How many of the first pairs have a smaller key. They stand before the others. Pairs lie flat in a table, two numbers each, so that
// this search is not the library's, which goes by a slice's items.
fn keys_below(pairs: &[i32], count: usize, key: usize) -> usize
    requires { (count ≤ 4096) × Sorted pairs.now count }
    ensures { result ≡ keys_below pairs.now count key }
{
    let mut lo = 0;
    let mut hi = count;
    while lo < hi {
        let mid = lo + (hi - lo) / 2;
        if key_at(pairs, mid) < key {
            lo = mid + 1;
        } else {
            hi = mid;
        }
    }
    lo
}

// The values of a symbol at what x, x + 1, .. stand for, by the first pairs.
pub fn listed_word(pairs: &[i32], count: usize, symbol: usize, x: usize, width: usize) -> u64
    requires { (count ≤ 4096) × (symbol ≤ 255) × (1 ≤ width) × (width ≤ 63) × (x + width ≤ 131072) × Sorted pairs.now count }
    ensures { result ≡ word_at (listed pairs.now count (pos symbol)) x width }
{
    let key = symbol * 131072 + x;
    let last = key + width - 1;
    let first = keys_below(pairs, count, key);
    let mut w: u64 = 0;
    for k in first..count {
        let there = key_at(pairs, k);
        if last < there {
            return w;
        }
        w += 1u64 << (there - key);
    }
    w
}

// What stands at i lies in -low .. high.
fn within_at(t: &[i32], i: usize, low: usize, high: usize) -> bool
    ensures { result ≡ within (neg_ℤ (pos low)) (pos high) (get_or t.now i (pos 0)) }
{
    if signed::under_at(t, i) <= low {
        return signed::natural_at(t, i) <= high;
    }
    false
}

// The symbol and the index of pair k are in range.
fn pair_in_range(pairs: &[i32], k: usize) -> bool
    requires { k < 2 ^ 32 }
    ensures { result ≡ pair_in_range pairs.now k }
{
    if within_at(pairs, 2 * k, 0, 255) {
        return within_at(pairs, 2 * k + 1, 29997, 29997);
    }
    false
}

// Pair k stands after the one before it.
fn pair_follows(pairs: &[i32], k: usize) -> bool
    requires { (k < 2 ^ 32) × AllInRange pairs.now (k + 1) }
    ensures { result ≡ pair_follows pairs.now k }
{
    if k == 0 {
        return true;
    }
    key_at(pairs, k - 1) < key_at(pairs, k)
}

// Pair k is in range and stands after the one before it.
fn pair_fits(pairs: &[i32], k: usize) -> bool
    requires { (k < 2 ^ 32) × AllInRange pairs.now k }
    ensures { result ≡ (pair_in_range pairs.now k and pair_follows pairs.now k) }
{
    if pair_in_range(pairs, k) {
        return pair_follows(pairs, k);
    }
    false
}

// The first of the pairs that is out of order or range.
pub fn pairs_pass(pairs: &[i32], count: usize) -> Result<(), Refused>
    requires { count ≤ 4096 }
    ensures { result ≡ scan (pair_refusal pairs.now) count }
{
    for k in 0..count {
        if !pair_fits(pairs, k) {
            return Err(Refusal::Pair.at(k));
        }
    }
    Ok(())
}
