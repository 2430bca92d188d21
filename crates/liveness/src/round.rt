// Rounds over the blocks, from the last to the first.
ghost use Rattle.std.specs.Prelude.{◌≡◌, List, ℕ, ◌+◌, ◌-◌, ◌<◌, get_or};
ghost use Rattle.instruction.specs.Instruction.{of_word};
ghost use Rattle.effects.specs.Shape.{Sections};
ghost use Rattle.effects.specs.laws.Cells.{cells_by};
ghost use Rattle.liveness.specs.Live.{Row};
ghost use Rattle.liveness.specs.laws.SetMemory.{Ready, InRows, code_words, uses_of, preserved_of, live_of};
ghost use Rattle.words.specs.laws.Only.{Only};
ghost use Rattle.liveness.specs.laws.Rounding.{Around, Rounded};
ghost use Rattle.liveness.specs.laws.Solving.{Solves};
ghost use Rattle.liveness.specs.laws.Visit.{Visited};

use crate::{SetLayout, out};
use use_def::row;

// Makes the row of block b anew, of the rows as they are. The answer is whether it is another one now.
fn visit_block(
    memory: &mut [u64],
    sets: SetLayout,
    blocks: &[u32],
    starts: &[u32],
    b: usize,
) -> bool
    requires { Ready sets memory.old blocks.now starts.now × (b < sets.count) }
    ensures { Visited sets.width b (get_or starts.now (b + 1) 0 - 1) sets.code (of_word (get_or memory.old (get_or starts.now (b + 1) 0 - 1) 0)) blocks.now (uses_of sets memory.old) (preserved_of sets memory.old) (live_of sets memory.old) (live_of sets memory.new) result × Only (InRows sets) memory.old memory.new }
{
    let w = sets.width;
    let at = w * b;
    let end = starts[b + 1] as usize;
    out::live_out(memory, blocks, sets, end - 1);
    row::transfer(
        memory,
        sets.live + at,
        sets.uses + at,
        sets.preserved + at,
        sets.row,
        w,
    )
}

// One round. The answer is whether it changed any row.
fn round(memory: &mut [u64], sets: SetLayout, blocks: &[u32], starts: &[u32]) -> bool
    requires { Ready sets memory.old blocks.now starts.now }
    ensures { ((S : Sections) (leaders keep metadata : List ℕ) (rows : List Row) → Around S leaders keep (cells_by (code_words sets memory.old) metadata) sets.width sets.count rows blocks.now starts.now (uses_of sets memory.old) (preserved_of sets memory.old) (live_of sets memory.old) → Rounded S leaders keep (cells_by (code_words sets memory.old) metadata) sets.width rows (live_of sets memory.new) result) × Only (InRows sets) memory.old memory.new }
{
    let mut changed = false;
    for b in (0..sets.count).rev() {
        changed |= visit_block(memory, sets, blocks, starts, b);
    }
    changed
}

// At most so many rounds, until one changes nothing. The answer is whether one did not; the row is free.
pub fn solve(
    memory: &mut [u64],
    sets: SetLayout,
    blocks: &[u32],
    starts: &[u32],
    limit: usize,
) -> bool
    requires { Ready sets memory.old blocks.now starts.now }
    ensures { Solves sets memory.old blocks.now starts.now limit memory.new result }
{
    for _ in 0..limit {
        if !round(memory, sets, blocks, starts) {
            return true;
        }
    }
    false
}
