// The check of all operands, and the list of the control places, where the sweeps over branches, blocks and hints find something to do.
ghost use Rattle.std.specs.Prelude.{◌≡◌, ℕ, ◌+◌, ◌*◌, ◌/◌, ◌^◌, ◌<◌, ◌≤◌, true, length};
ghost use mir.Val.{bool_byte};
ghost use borrow.Rule.Slice.PartMut.{mid_of};
ghost use Rattle.words.specs.laws.Regions.{Outside};
ghost use Rattle.instruction.specs.Instruction.{class, of_word};
ghost use Rattle.unit.specs.Entry.{metadata_at, good_metadata};
ghost use Rattle.unit.specs.Size.{metadata_size, case_size, max_local_slots};
ghost use Rattle.effects.specs.Shape.{tables_in};
ghost use Rattle.effects.specs.Check.{operand_check};
ghost use Rattle.effects.specs.laws.Cells.{cells_by};
ghost use Rattle.flow.specs.laws.Control.{is_control};
ghost use Rattle.flow.specs.laws.Listing.{check_of, ListedBy};

use effects::{Tables, operands};
use instruction::{Class, opcode};
use unit::refusal::Refusal;

// A set of classes, as bits by their places in `Class`.
const CONTROL: u64 = (1 << Class::Hint as u64)
    | (1 << Class::Jump as u64)
    | (1 << Class::JumpIf as u64)
    | (1 << Class::JumpIfNot as u64)
    | (1 << Class::ForLoop as u64)
    | (1 << Class::Return as u64)
    | (1 << Class::Panic as u64);

// 1 for the word of a hint or of what ends a block, by the bit of its class.
fn control(w: u64) -> u64
    ensures { result ≡ bool_byte (is_control (class (of_word w))) }
{
    (CONTROL >> opcode::class_of((w % 256) as u8) as u64) % 2
}

// Refusals 5, 6 and 7 of the n words, and on the way the list of their control places from `at` on: one sweep serves both. Every place is
// stored, and the next one takes its position unless it is a control place: the processor has no branch to predict.
pub fn check_operands(
    memory: &mut [u64],
    n: usize,
    at: usize,
    metadata: &[u8],
    locals: usize,
    tables: Tables,
) -> Result<usize, Refusal>
    requires { (n < 2 ^ 32) × (n ≤ at) × (at + n ≤ length memory.old)
        × (length metadata.now ≡ metadata_size * n) × (locals ≤ max_local_slots)
        × ((k : ℕ) → k < n → good_metadata (length tables.cases.now / case_size) (metadata_at metadata.now k) ≡ true) }
    ensures { (check_of result ≡ operand_check locals (tables_in tables.entry) (cells_by (mid_of 0 n memory.old) metadata.now)) × ListedBy result (mid_of 0 n memory.old) n at memory.new × Outside at n memory.old memory.new }
{
    let mut count: usize = 0;
    for p in 0..n {
        let w = memory[p];
        let refused = operands::operand_refusal(locals, w, metadata, p, &tables);
        if let Some(reason) = refused {
            return Err(reason.at(p as u32));
        }
        memory[at + count] = p as u64;
        count += control(w) as usize;
    }
    Ok(count)
}
