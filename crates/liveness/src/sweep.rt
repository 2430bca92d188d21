// The sweep that drops dead stores, from the last place to the first.
ghost use Rattle.std.specs.Prelude.{◌≡◌, ◌+◌, ◌*◌, ◌≤◌, ◌<◌, length, get_or};
ghost use Rattle.instruction.specs.Instruction.{of_word, class};
ghost use Rattle.unit.specs.Size.{metadata_size};
ghost use Rattle.effects.specs.Shape.{tables_in};
ghost use Rattle.effects.specs.laws.Cells.{cell_of};
ghost use Rattle.effects.specs.laws.Form.{empty_range};
ghost use Rattle.effects.specs.laws.ByClass.{writes_by_class};
ghost use Rattle.pc_map.specs.Boundary.{is_kept};
ghost use Rattle.use_def.specs.laws.Touched.{Fits};
ghost use Rattle.use_def.specs.laws.Free.{Spans, dead_by};
ghost use Rattle.liveness.specs.Live.{is_last};
ghost use Rattle.liveness.specs.laws.SetMemory.{LayoutFits, Coded, Sweepable, row_of, live_of};
ghost use Rattle.words.specs.laws.Only.{At, Only};
ghost use Rattle.liveness.specs.laws.Sweeping.{Entered, Swept};
ghost use Rattle.liveness.specs.laws.Sweep.{Sweeps};

use crate::{SetLayout, out};
use effects::{Tables, branching, single};
use instruction::{Instruction, opcode};
use unit::region;
use use_def::{dead, touch};

// Is p the last place of its block?
fn is_last(leaders: &[u32], p: usize) -> bool
    requires { p < length leaders.now }
    ensures { result ≡ is_last (length leaders.now) leaders.now p }
{
    if p + 1 == leaders.len() {
        return true;
    }
    leaders[p + 1] == 1
}

// What is live after place p, of what is live before the next one.
pub fn enter_place(memory: &mut [u64], sets: SetLayout, blocks: &[u32], leaders: &[u32], p: usize)
    requires { Coded sets memory.old blocks.now × (p < sets.code) × (length leaders.now ≡ sets.code) }
    ensures { Entered (is_last (length leaders.now) leaders.now p) sets.width (live_of sets memory.old) blocks.now sets.code p (of_word (get_or memory.old p 0)) (row_of sets memory.old) (row_of sets memory.new) × Only (At sets.row sets.width) memory.old memory.new }
{
    if is_last(leaders, p) {
        out::live_out(memory, blocks, sets, p);
    }
}

// Drops the store at place p if it is dead; else the row becomes what is live before it.
fn sweep_place(
    memory: &mut [u64],
    keep: &mut [u32],
    sets: SetLayout,
    metadata: &[u8],
    types: &[u8],
    tables: Tables,
    p: usize,
)
    requires { LayoutFits sets (length memory.old) × (p < sets.code) × (metadata_size * sets.code ≤ length metadata.now) × (length keep.old ≡ sets.code) × Spans types.now (row_of sets memory.old) (get_or (writes_by_class (class (of_word (get_or memory.old p 0))) (of_word (get_or memory.old p 0))) 0 empty_range) × Fits sets.width (tables_in tables) (cell_of metadata.now p (get_or memory.old p 0)) × (0 < sets.width) }
    ensures { Swept (tables_in tables.entry) (is_kept keep.old p) (dead_by types.now (row_of sets memory.old) (of_word (get_or memory.old p 0))) (cell_of metadata.now p (get_or memory.old p 0)) p keep.old keep.new (row_of sets memory.old) (row_of sets memory.new) × Only (At sets.row sets.width) memory.old memory.new }
{
    if keep[p] != 1 {
        return;
    }
    let start = sets.row;
    let end = start + sets.width;
    let word = memory[p];
    let class = opcode::class_of((word % 256) as u8);
    if single::is_single(class) {
        // The processor could not predict which store is dead.
        let live = !dead::is_single_dead(types, &memory[start..end], word);
        keep[p] = live as u32;
        touch::single_before(&mut memory[start..end], word, class, live);
        return;
    }
    if branching::is_branching(class) {
        touch::branch_before(&mut memory[start..end], word, class);
        return;
    }
    let i = Instruction::from_word(word);
    if dead::is_dead(types, &memory[start..end], i) {
        keep[p] = 0;
        return;
    }
    touch::live_before(&mut memory[start..end], i, metadata, p, tables);
}

// Drops the dead stores, given what is live at the start of each block. The table is the 32-bit work, with leaders, blocks and the
// flags of kept places. What the memory holds beside the code is free.
pub fn sweep(
    memory: &mut [u64],
    table: &mut [u32],
    sets: SetLayout,
    metadata: &[u8],
    types: &[u8],
    tables: Tables,
)
    requires { Sweepable sets (tables_in tables) memory.old metadata.now types.now table.old × (0 < sets.width) }
    ensures { Sweeps sets memory.old metadata.now types.now (tables_in tables.entry) table.old memory.new table.new }
{
    let n = sets.code;
    let flags = region::keep_at(n);
    for p in (0..n).rev() {
        enter_place(memory, sets, &table[n..n + n], &table[0..n], p);
        sweep_place(
            memory,
            &mut table[flags..flags + n],
            sets,
            metadata,
            types,
            tables,
            p,
        );
    }
}
