// What is live at a block's end.
ghost use Rattle.std.specs.Prelude.{◌≡◌, ◌+◌, ◌*◌, ◌^◌, ◌≤◌, ◌<◌, length, get_or};
ghost use Rattle.instruction.specs.Instruction.{of_word};
ghost use Rattle.liveness.specs.laws.SetMemory.{Coded, row_of, live_of};
ghost use Rattle.words.specs.laws.Only.{At, Only};
ghost use Rattle.liveness.specs.laws.Out.{OutOf};

use crate::SetLayout;
use flow::branch;
use instruction::Instruction;
use use_def::row;

// Where the live slots at the start of the block of place q stand.
fn row_of(blocks: &[u32], sets: SetLayout, q: u64) -> usize
    requires { (sets.live + sets.width * sets.count < 2 ^ 64) × (q < length blocks.now) × (sets.width * get_or blocks.now q 0 + sets.width ≤ sets.width * sets.count) }
    ensures { result ≡ sets.live + sets.width * get_or blocks.now q 0 }
{
    sets.live + sets.width * (blocks[q as usize] as usize)
}

// What is live after place p, the last of its block, of what is live at the starts of blocks. Which ways instructions go follows no
// pattern, so that no branch is taken on them: a row that they do not go to is that of place 0, of which no bit is taken.
pub fn live_out(memory: &mut [u64], blocks: &[u32], sets: SetLayout, p: usize)
    requires { Coded sets memory.old blocks.now × (p < sets.code) }
    ensures { OutOf sets.width (live_of sets memory.old) blocks.now sets.code p (of_word (get_or memory.old p 0)) (row_of sets memory.new) × Only (At sets.row sets.width) memory.old memory.new }
{
    let i = Instruction::from_word(memory[p]);
    let class = i.class();
    let next = p as u64 + 1;
    let first = row::mask(branch::falls(class) & ((next < sets.code as u64) as u64));
    let second = row::mask(branch::branches(class));
    let a = row_of(blocks, sets, next & first);
    let b = row_of(blocks, sets, branch::branch_target(p, i, class) & second);
    row::join(memory, sets.row, a, first, b, second, sets.width);
}
