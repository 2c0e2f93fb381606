// What is read of a table at a place that lies within it.
ghost use Rattle.std.specs.Prelude.{◌≡◌, ◌<◌, ◌^◌, length, get_or};

pub fn held_at(t: &[u32], i: usize) -> usize
    requires { i < length t.now }
    ensures { (result ≡ get_or t.now i 0) × (result < 2 ^ 32) }
{
    t[i] as usize
}

// The same of a table of smaller numbers.
pub fn head_at(t: &[u16], i: usize) -> usize
    requires { i < length t.now }
    ensures { result ≡ get_or t.now i 0 }
{
    t[i] as usize
}
