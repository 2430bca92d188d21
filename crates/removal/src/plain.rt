// Plain hints are dropped.
ghost use Rattle.std.specs.Prelude.{◌≡◌, List, ℕ, ◌≤◌, length};
ghost use Rattle.unit.specs.Size.{max_instructions};
ghost use Rattle.effects.specs.laws.Cells.{cells_by};
ghost use Rattle.flow.specs.laws.Control.{Controls};
ghost use Rattle.flow.specs.Loop.{is_plain_hint};
ghost use Rattle.answer.specs.Pass.{useful_places};

use instruction::{Instruction, opcode};

// "Hint with flags 0"
fn is_plain_hint(i: Instruction) -> bool
    ensures { result ≡ is_plain_hint i }
{
    (i.op == opcode::HINT) & (i.flags == 0)
}

// It is not kept, by the list of the control places.
pub fn drop_hints(words: &[u64], list: &[u64], keep: &mut [u32])
    requires { (length keep.old ≡ length words.now) × (length words.now ≤ max_instructions) × Controls words.now list.now (length words.now) }
    ensures { (metadata : List ℕ) → keep.new ≡ useful_places keep.old (cells_by words.now metadata) }
{
    for place in list {
        let p = *place as usize;
        if is_plain_hint(Instruction::from_word(words[p])) {
            keep[p] = 0;
        }
    }
}
