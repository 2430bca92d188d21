// Where things stand in the memory of the table of values, for n instructions and so many local slots: each region starts where the
// one before it ends.
ghost use Rattle.std.specs.Prelude.{◌≡◌, ◌≤◌};
ghost use Rattle.values.specs.laws.Memory.{bounds_at, constants_at, expressions_at, end_at};

// The words in front.
pub const EPOCH: usize = 0;

pub const CONSTANT_COUNT: usize = 1;

pub const EXPRESSION_COUNT: usize = 2;

// A word for each slot.
pub const SLOTS_AT: usize = 3;

// Two words of bounds for each of locals + 2 n + 1 value numbers.
pub fn bounds_at(locals: usize) -> usize
    requires { locals ≤ 65536 }
    ensures { result ≡ bounds_at locals }
{
    SLOTS_AT + locals
}

// The table of constants: n heads, then n entries of 4 words.
pub fn constants_at(n: usize, locals: usize) -> usize
    requires { (n ≤ 65536) × (locals ≤ 65536) }
    ensures { result ≡ constants_at n locals }
{
    5 + 3 * locals + 4 * n
}

// The table of expressions, as long as that of constants.
pub fn expressions_at(n: usize, locals: usize) -> usize
    requires { (n ≤ 65536) × (locals ≤ 65536) }
    ensures { result ≡ expressions_at n locals }
{
    5 + 3 * locals + 9 * n
}

pub fn end_at(n: usize, locals: usize) -> usize
    requires { (n ≤ 65536) × (locals ≤ 65536) }
    ensures { result ≡ end_at n locals }
{
    5 + 3 * locals + 14 * n
}
