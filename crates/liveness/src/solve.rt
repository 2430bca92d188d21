// The live slots at the start of each block.
ghost use Rattle.std.specs.Prelude.{◌≡◌, true, false, List, ℕ, ◌+◌, ◌*◌, ◌≤◌, ◌^◌, ◌<◌, length};
ghost use borrow.Rule.Slice.PartMut.{mid_of};
ghost use Rattle.unit.specs.laws.Region.{keep_at};
ghost use Rattle.unit.specs.Size.{set_words, sets_room};
ghost use Rattle.effects.specs.Shape.{tables_in};
ghost use Rattle.liveness.specs.laws.SetMemory.{laid_out, code_words};
ghost use Rattle.liveness.specs.laws.Workable.{Known, Workable, RowsIn, rows_by};

use crate::{SetLayout, block, round};
use effects::Tables;
use unit::{region, size};

// "liveness work passes 16,777,216"
const MAX_WORK: usize = 16777216;

// One set behind the code's n words, and three for each block.
pub fn laid_out(n: usize, w: usize, count: usize) -> SetLayout
    requires { n + w + 3 * (w * count) < 2 ^ 64 }
    ensures { result ≡ laid_out n w count }
{
    let size = w * count;
    let uses = n + w;
    let preserved = uses + size;
    SetLayout {
        code: n,
        width: w,
        count,
        row: n,
        uses,
        preserved,
        live: preserved + size,
    }
}

// Within the limit of sets: the sets that each block uses and preserves, and rounds from no live slot on.
fn solve_blocks(
    memory: &mut [u64],
    table: &[u32],
    sets: SetLayout,
    metadata: &[u8],
    tables: Tables,
) -> bool
    requires workable { (types : List ℕ) × Workable sets (tables_in tables)
        memory.old metadata.now types table.now }
    ensures found { result ≡ true → (types constants : List ℕ)
        → Workable sets (tables_in tables.entry)
        memory.old metadata.now types table.now
        → RowsIn sets (tables_in tables.entry)
        memory.new metadata.now types table.now constants }
    ensures none { result ≡ false → (types constants : List ℕ)
        → Workable sets (tables_in tables.entry)
        memory.old metadata.now types table.now
        → rows_by (tables_in tables.entry) sets.code
        memory.old metadata.now types table.now constants ≡ None }
    ensures code { code_words sets memory.new ≡ code_words sets memory.old }
{
    let n = sets.code;
    let starts = region::starts_at(n);
    let flags = region::keep_at(n);
    let live = sets.live;
    let size = sets.width * sets.count;
    memory[live..live + size].fill(0);
    block::summarize(
        memory,
        sets,
        metadata,
        &table[flags..flags + n],
        tables,
        &table[starts..flags],
    );
    round::solve(
        memory,
        sets,
        &table[n..starts],
        &table[starts..flags],
        MAX_WORK / size,
    )
}

// Are live rows found, within both limits? Memory holds the code's n words and has room for the sets behind them, which
// lie there as `laid_out` says; what it held there is free. The table is the 32-bit work up to the end of the kept
// places: leaders, blocks, where the blocks start, flags.
pub fn solve_rows(
    memory: &mut [u64],
    table: &[u32],
    metadata: &[u8],
    types: &[u8],
    tables: Tables,
    n: usize,
    count: usize,
) -> bool
    requires known { Known (tables_in tables) n count
        memory.old metadata.now types.now table.now }
    requires room { sets_room n (length types.now) ≤ length memory.old }
    requires flags { keep_at n + n ≤ length table.now }
    ensures found { result ≡ true → (constants : List ℕ)
        → RowsIn (laid_out n (set_words (length types.now)) count)
        (tables_in tables.entry)
        memory.new metadata.now types.now table.now constants }
    ensures none { result ≡ false → (constants : List ℕ)
        → rows_by (tables_in tables.entry) n
        memory.old metadata.now types.now table.now constants ≡ None }
    ensures code { mid_of 0 n memory.new ≡ mid_of 0 n memory.old }
{
    let w = size::set_words(types.len());
    if w == 0 {
        return false;
    }
    if w * count > size::MAX_SET_WORDS {
        return false;
    }
    solve_blocks(memory, table, laid_out(n, w, count), metadata, tables)
}
