// Plain opcodes: they demand nothing, read at most two single slots and write at most a. Their operands are checked by
// comparisons alone.
ghost use Rattle.std.specs.Prelude.{◌≡◌, ◌/◌, ◌%◌, ◌<◌};
ghost use Rattle.instruction.specs.Instruction.{of_word};
ghost use Rattle.effects.specs.laws.Plain.{is_plain, plain_within};

use crate::form;
use instruction::opcode;

pub fn is_plain(op: u8, row: u64) -> bool
    ensures { result ≡ is_plain op row }
{
    (op != opcode::SELECT_EXEC) & (row < 0x30000) & (row / 256 % 256 < 3)
}

// Of a plain row and an instruction's word: no slot is at or past the limit.
pub fn is_within(limit: usize, row: u64, w: u64) -> bool
    requires { (row < 0x30000) × (row / 256 % 256 < 3) }
    ensures { result ≡ plain_within limit row (of_word w) }
{
    let first = form::field(w, row / 256 % 256);
    let second = form::field(w, row / 65536 % 256);
    let a = form::field(w, 0);
    ((row % 16 == 0) | (first < limit))
        & ((row % 16 < 2) | (second < limit))
        & ((row / 16 % 16 == 0) | (a < limit))
}
