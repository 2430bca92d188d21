// Hints, jumps and loops, by their class.
ghost use Rattle.std.specs.Prelude.{◌≡◌, ◌<◌};
ghost use Rattle.effects.specs.laws.Branching.{is_branching, reads_condition, is_loop};

use instruction::Class;

// Sets of classes, as bits by their places in `Class`.
const BRANCHING: u64 = (1 << Class::Hint as u64)
    | (1 << Class::Jump as u64)
    | (1 << Class::JumpIf as u64)
    | (1 << Class::JumpIfNot as u64)
    | (1 << Class::ForLoop as u64);

const CONDITIONAL: u64 = (1 << Class::JumpIf as u64)
    | (1 << Class::JumpIfNot as u64)
    | (1 << Class::ForLoop as u64);

const LOOPING: u64 = 1 << Class::ForLoop as u64;

// Is it one of these? Of slots it reads a and b and writes a at most.
pub fn is_branching(c: Class) -> bool
    ensures { result ≡ is_branching c }
{
    (BRANCHING >> c as u64) % 2 == 1
}

// Of these, does it read a, the condition or a loop's index? All but Hint and Jump do.
pub fn reads_condition(c: Class) -> bool
    ensures { result ≡ reads_condition c }
{
    (CONDITIONAL >> c as u64) % 2 == 1
}

// Is it ForLoop? That reads its limit b too, and writes a.
pub fn is_loop(c: Class) -> bool
    ensures { result ≡ is_loop c }
{
    (LOOPING >> c as u64) % 2 == 1
}
