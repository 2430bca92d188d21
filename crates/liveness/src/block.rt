// What a block does to live slots: it uses some, and preserves those that it does not write.
ghost use Rattle.std.specs.Prelude.{◌≡◌, ℕ, ◌+◌, ◌*◌, ◌-◌, ◌≤◌, ◌<◌, length, get_or};
ghost use borrow.Rule.Slice.PartMut.{mid_of};
ghost use Rattle.unit.specs.Size.{metadata_size};
ghost use Rattle.effects.specs.Shape.{tables_in};
ghost use Rattle.effects.specs.laws.Cells.{cell_of, cells_by};
ghost use Rattle.pc_map.specs.Boundary.{is_kept};
ghost use Rattle.use_def.specs.laws.Touched.{Fits};
ghost use Rattle.liveness.specs.laws.SetMemory.{LayoutFits, BlockFits, code_words, uses_of, preserved_of, live_of};
ghost use Rattle.words.specs.laws.Only.{At, Either, Only};
ghost use Rattle.liveness.specs.laws.Through.{Placed, Summary};
ghost use Rattle.liveness.specs.laws.Visit.{Rising, Summed};

use crate::{BlockSets, SetLayout};
use effects::{Tables, branching, single};
use instruction::{Instruction, opcode};
use use_def::touch;

// A place more, before those that the two sets are of. Most instructions name single slots, and their word tells all.
fn summarize_place(
    memory: &mut [u64],
    sets: BlockSets,
    metadata: &[u8],
    keep: &[u32],
    tables: Tables,
    p: usize,
)
    requires fits { BlockFits sets (tables_in tables)
        memory.old metadata.now keep.now (p + 1) }
    ensures sets { Placed (tables_in tables.entry)
        (is_kept keep.now p) (cell_of metadata.now p (get_or memory.old p 0))
        (mid_of sets.uses sets.width memory.old)
        (mid_of sets.preserved sets.width memory.old)
        (mid_of sets.uses sets.width memory.new)
        (mid_of sets.preserved sets.width memory.new) }
    ensures rest { Only (Either (At sets.uses sets.width) (At sets.preserved sets.width))
        memory.old memory.new }
{
    if keep[p] != 1 {
        return;
    }
    let uses = sets.uses;
    let preserved = sets.preserved;
    let w = sets.width;
    let word = memory[p];
    let class = opcode::class_of((word % 256) as u8);
    if single::is_single(class) {
        touch::take_single_write(&mut memory[preserved..preserved + w], word);
        touch::single_before(&mut memory[uses..uses + w], word, class, true);
        return;
    }
    if branching::is_branching(class) {
        touch::take_loop_write(&mut memory[preserved..preserved + w], word, class);
        touch::branch_before(&mut memory[uses..uses + w], word, class);
        return;
    }
    let i = Instruction::from_word(word);
    touch::put_writes(
        &mut memory[preserved..preserved + w],
        false,
        i,
        metadata,
        p,
        tables.callees,
    );
    touch::live_before(&mut memory[uses..uses + w], i, metadata, p, tables);
}

// The two sets of the places from start to end.
fn summarize_block(
    memory: &mut [u64],
    sets: BlockSets,
    metadata: &[u8],
    keep: &[u32],
    tables: Tables,
    start: usize,
    end: usize,
)
    requires fits { BlockFits sets (tables_in tables)
        memory.old metadata.now keep.now end }
    requires places { start ≤ end }
    ensures sets { (n : ℕ) → end ≤ n → n ≤ sets.uses
        → Summary (tables_in tables.entry) keep.now
        (cells_by (mid_of 0 n memory.old) metadata.now)
        (mid_of sets.uses sets.width memory.new)
        (mid_of sets.preserved sets.width memory.new)
        start (end - start) }
    ensures rest { Only (Either (At sets.uses sets.width) (At sets.preserved sets.width))
        memory.old memory.new }
{
    let uses = sets.uses;
    let preserved = sets.preserved;
    let w = sets.width;
    memory[preserved..preserved + w].fill(u64::MAX);
    memory[uses..uses + w].fill(0);
    for p in (start..end).rev() {
        summarize_place(memory, sets, metadata, keep, tables, p);
    }
}

// The sets of all blocks. What the memory holds beside code and sets, the row among it, is free.
pub fn summarize(
    memory: &mut [u64],
    sets: SetLayout,
    metadata: &[u8],
    keep: &[u32],
    tables: Tables,
    starts: &[u32],
)
    requires { LayoutFits sets (length memory.old) × (sets.count < length starts.now) × Rising starts.now sets.count sets.code × (metadata_size * sets.code ≤ length metadata.now) × (length keep.now ≡ sets.code) × ((p : ℕ) → p < sets.code → Fits sets.width (tables_in tables) (cell_of metadata.now p (get_or memory.old p 0))) × (0 < sets.width) }
    ensures { Summed (tables_in tables.entry) keep.now (cells_by (code_words sets memory.old) metadata.now) sets.width starts.now (uses_of sets memory.new) (preserved_of sets memory.new) sets.count × (code_words sets memory.new ≡ code_words sets memory.old) × (live_of sets memory.new ≡ live_of sets memory.old) }
{
    for b in 0..sets.count {
        let at = sets.width * b;
        let start = starts[b] as usize;
        let end = starts[b + 1] as usize;
        let own = BlockSets {
            uses: sets.uses + at,
            preserved: sets.preserved + at,
            width: sets.width,
        };
        summarize_block(memory, own, metadata, keep, tables, start, end);
    }
}
