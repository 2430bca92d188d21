// Loads, copies and operators, by their class. Their operands are checked by comparisons alone.
ghost use Rattle.std.specs.Prelude.{◌≡◌, ◌<◌};
ghost use Rattle.instruction.specs.Instruction.{of_word};
ghost use Rattle.effects.specs.laws.Single.{is_single, reads_first, reads_second};
ghost use Rattle.effects.specs.laws.Single.{single_within};

use crate::form;
use instruction::Class;

// Sets of classes, as bits by their places in `Class`.
const SINGLE: u64 = (1 << Class::LoadInt as u64)
    | (1 << Class::LoadConst as u64)
    | (1 << Class::Copy as u64)
    | (1 << Class::Unary as u64)
    | (1 << Class::Binary as u64);

const READING_FIRST: u64 = (1 << Class::Copy as u64)
    | (1 << Class::Unary as u64)
    | (1 << Class::Binary as u64);

const READING_SECOND: u64 = 1 << Class::Binary as u64;

// Is it one of these? It writes slot a, and of single slots it reads b and c at most.
pub fn is_single(c: Class) -> bool
    ensures { result ≡ is_single c }
{
    (SINGLE >> c as u64) % 2 == 1
}

// Of these, does it read b?
pub fn reads_first(c: Class) -> bool
    ensures { result ≡ reads_first c }
{
    (READING_FIRST >> c as u64) % 2 == 1
}

// And c?
pub fn reads_second(c: Class) -> bool
    ensures { result ≡ reads_second c }
{
    (READING_SECOND >> c as u64) % 2 == 1
}

// Of an instruction's word: no slot is at or past the limit.
pub fn is_within(limit: usize, c: Class, w: u64) -> bool
    ensures { result ≡ single_within limit c (of_word w) }
{
    (!reads_first(c) | (form::field(w, 1) < limit))
        & (!reads_second(c) | (form::field(w, 2) < limit))
        & (form::field(w, 0) < limit)
}
