// Where the regions of the 32-bit work stand, for n instructions. The work from the kept places on is lent by itself: what ends
// in `_in`, and the end of the stack, is counted from there.
ghost use Rattle.std.specs.Prelude.{◌≡◌, ◌^◌, ◌<◌};
ghost use Rattle.unit.specs.laws.Region.{starts_at, keep_at, loop_ends_in, list_in, list_at, stack_end};

pub fn starts_at(n: usize) -> usize
    requires { n < 2 ^ 32 }
    ensures { result ≡ starts_at n }
{
    2 * n
}

pub fn keep_at(n: usize) -> usize
    requires { n < 2 ^ 32 }
    ensures { result ≡ keep_at n }
{
    3 * n + 1
}

pub fn loop_ends_in(n: usize) -> usize
    requires { n < 2 ^ 32 }
    ensures { result ≡ loop_ends_in n }
{
    2 * n + 1
}

pub fn list_in(n: usize) -> usize
    requires { n < 2 ^ 32 }
    ensures { result ≡ list_in n }
{
    3 * n + 1
}

pub fn stack_end(n: usize) -> usize
    requires { n < 2 ^ 32 }
    ensures { result ≡ stack_end n }
{
    5 * n + 4
}

pub fn list_at(n: usize) -> usize
    requires { n < 2 ^ 32 }
    ensures { result ≡ list_at n }
{
    keep_at(n) + list_in(n)
}
