// Sets of small numbers as the bits of lent words, 64 to a word.
ghost use Rattle.std.specs.Prelude.{◌≡◌, ◌*◌, ◌<◌, length};
ghost use Rattle.words.specs.laws.Bits.{member, inserted, removed};

pub fn contains(s: &[u64], i: usize) -> bool
    requires { i < 64 * length s.now }
    ensures { result ≡ member s.now i }
{
    (s[i / 64] >> (i % 64)) % 2 == 1
}

pub fn insert(s: &mut [u64], i: usize)
    requires { i < 64 * length s.old }
    ensures { s.new ≡ inserted s.old i }
{
    s[i / 64] |= 1 << (i % 64);
}

pub fn remove(s: &mut [u64], i: usize)
    requires { i < 64 * length s.old }
    ensures { s.new ≡ removed s.old i }
{
    s[i / 64] &= !(1 << (i % 64));
}
