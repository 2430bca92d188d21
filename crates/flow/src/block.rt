// Blocks: where they start, and the block of each place.
ghost use Rattle.std.specs.Prelude.{◌≡◌, ℕ, ◌+◌, ◌*◌, ◌^◌, ◌<◌, ◌≤◌, List, length};
ghost use borrow.Rule.Slice.PartMut.{mid_of, put_mid};
ghost use Rattle.unit.specs.laws.Region.{starts_at, keep_at};
ghost use Rattle.effects.specs.laws.Cells.{cells_by};
ghost use Rattle.flow.specs.Block.{leaders};
ghost use Rattle.flow.specs.laws.Blocks.{Numbered};
ghost use Rattle.flow.specs.laws.Control.{Controls};
ghost use Rattle.flow.specs.laws.Flags.{Flags};
ghost use Rattle.flow.specs.laws.Leaders.{starts};
ghost use Rattle.flow.specs.laws.Marks.{Marked};
ghost use Rattle.flow.specs.Reach.{mark_all};

use crate::{branch, mark};
use instruction::Instruction;
use unit::region;

// Marks the leaders that the instruction at place p makes: its target, and the place after it. A branch ends its block.
fn mark_starts(marks: &mut [u32], p: usize, i: Instruction)
    requires { p < 2 ^ 32 }
    ensures { marks.new ≡ mark_all marks.old (starts p i) }
{
    if !branch::ends_block(i.op) {
        return;
    }
    let class = i.class();
    mark::mark_if(marks, branch::branches(class) == 1, branch::target(p, i));
    mark::mark_if(marks, true, p as u64 + 1);
}

// Marks each place where a block starts, by the list of the control places. The metadata of the cells plays no part.
pub fn mark_leaders(words: &[u64], list: &[u64], marks: &mut [u32])
    requires { (1 ≤ length words.now) × (length words.now < 2 ^ 32)
        × (length marks.old ≡ length words.now) × Controls words.now list.now (length words.now) }
    ensures { (metadata : List ℕ) → marks.new ≡ leaders (cells_by words.now metadata) }
{
    marks.fill(0);
    marks[0] = 1;
    for place in list {
        let p = *place as usize;
        mark_starts(marks, p, Instruction::from_word(words[p]));
    }
}

// Numbers the blocks by the n leaders: after them, for each place its block, and then for each block its start and, past the last,
// the number of places.
pub fn number_blocks(work: &mut [u32], n: usize) -> usize
    requires { Flags (mid_of 0 n work.old) × Marked (mid_of 0 n work.old) 0 × (n < 2 ^ 32)
        × (keep_at n ≤ length work.old) }
    ensures { Numbered (mid_of 0 n work.old) (mid_of n n work.new) (mid_of (starts_at n) (n + 1) work.old) (mid_of (starts_at n) (n + 1) work.new) result × (work.new ≡ put_mid n (2 * n + 1) work.old (mid_of n (2 * n + 1) work.new)) }
{
    let starts = region::starts_at(n);
    let mut count: usize = 0;
    for p in 0..n {
        // Stored over again, unless p is a leader.
        work[starts + count] = p as u32;
        count += work[p] as usize;
        work[n + p] = (count - 1) as u32;
    }
    work[starts + count] = n as u32;
    count
}
