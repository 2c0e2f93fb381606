// Membership in a set, which lists its rows in ascending order.
ghost use Rattle.std.specs.Prelude.{◌≡◌, true};
ghost use Rattle.stab.specs.Basic.{has, ascending};
ghost use Rattle.stab.specs.Search.{place_of, stands_at};

// The place of the first member that is not below z, or the list's length.
pub fn place(list: &[i32], z: i32) -> usize
    ensures { result ≡ place_of z list.now }
{
    list.iter()
        .position(|x| !signed::less(*x, z))
        .unwrap_or(list.len())
}

// z stands at place i.
pub fn stands_at(list: &[i32], i: usize, z: i32) -> bool
    ensures { result ≡ stands_at z list.now i }
{
    if i < list.len() {
        return signed::equal(z, list[i]);
    }
    false
}

// z stands in an ascending list.
pub fn stands(list: &[i32], z: i32) -> bool
    requires { ascending list.now ≡ true }
    ensures { result ≡ has z list.now }
{
    stands_at(list, place(list, z), z)
}
