// Stores that nothing reads are no longer kept.
ghost use Rattle.std.specs.Prelude.{◌≡◌, List, ℕ, ◌+◌, ◌≤◌, length};
ghost use borrow.Rule.Slice.PartMut.{mid_of, put_mid};
ghost use Rattle.unit.specs.laws.Region.{keep_at};
ghost use Rattle.unit.specs.Size.{sets_room};
ghost use Rattle.effects.specs.Shape.{tables_in};
ghost use Rattle.effects.specs.laws.Cells.{cells_by};
ghost use Rattle.liveness.specs.Dead.{dead_stores};
ghost use Rattle.liveness.specs.laws.Sweep.{sections};
ghost use Rattle.liveness.specs.laws.Workable.{Known};

use crate::{solve, sweep};
use effects::Tables;
use unit::size;

// Memory holds the code's n words and has room for the sets behind them. The table is the 32-bit work up to the end of the kept
// places: leaders, blocks, where the blocks start, flags. What the memory holds behind the code is free.
pub fn drop_dead_stores(
    memory: &mut [u64],
    table: &mut [u32],
    metadata: &[u8],
    types: &[u8],
    tables: Tables,
    n: usize,
    count: usize,
)
    requires { Known (tables_in tables) n count memory.old metadata.now types.now table.old × (sets_room n (length types.now) ≤ length memory.old) × (keep_at n + n ≤ length table.old) }
    ensures { ((constants : List ℕ) → table.new ≡ put_mid (keep_at n) n table.old (dead_stores (sections (length types.now) types.now constants (tables_in tables.entry)) (mid_of 0 n table.old) (mid_of (keep_at n) n table.old) (cells_by (mid_of 0 n memory.old) metadata.now))) × (mid_of 0 n memory.new ≡ mid_of 0 n memory.old) }
{
    if !solve::solve_rows(memory, table, metadata, types, tables, n, count) {
        return;
    }
    let sets = solve::laid_out(n, size::set_words(types.len()), count);
    sweep::sweep(memory, table, sets, metadata, types, tables);
}
