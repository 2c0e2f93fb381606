// A hash chain: rows in buckets, each row linked to the one before it in its bucket.
ghost use Rattle.std.specs.Prelude.{◌≡◌, ◌+◌, ◌<◌, ◌≤◌, ◌^◌, length, get_or, set};
ghost use Rattle.tables.specs.Chain.{bucket_of};

// The bucket of a hash, one of m.
pub fn bucket(hash: usize, m: usize) -> usize
    requires { (hash < 2 ^ 30) × (0 < m) × (m ≤ 65536) }
    ensures { (result ≡ bucket_of m hash) × (result < m) }
{
    hash * m / 1073741824
}

// Row r is the last of bucket h.
pub fn keep(r: usize, h: usize, next: &mut [u16], heads: &mut [u16])
    requires { (r < 65535) × (r < length next.old) × (h < length heads.old) }
    ensures next_after { next.new ≡ set next.old r (get_or heads.old h 0) }
    ensures heads_after { heads.new ≡ set heads.old h (r + 1) }
{
    next[r] = heads[h];
    heads[h] = (r + 1) as u16;
}
