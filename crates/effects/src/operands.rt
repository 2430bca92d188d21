// The refusal of one instruction's operands: 5, 6 and 7.
ghost use Rattle.std.specs.Prelude.{◌≡◌, true, List, ◌++◌, ℕ, ◌+◌, ◌*◌, ◌/◌, ◌<◌, ◌≤◌, length, get_or};
ghost use Rattle.instruction.specs.Opcode.{max_valid};
ghost use Rattle.unit.specs.Size.{metadata_size, case_size, max_local_slots};
ghost use Rattle.unit.specs.Entry.{metadata_at, good_metadata};
ghost use Rattle.unit.specs.Refusal.{test_number};
ghost use Rattle.effects.specs.Shape.{tables_of, tables_in, tables_with};
ghost use Rattle.effects.specs.Effects.{all_reads, sure_writes, perhaps_writes, writes, all_of};
ghost use Rattle.effects.specs.Check.{effects_sound, operand_refusal};
ghost use Rattle.effects.specs.laws.Cells.{cell_of};
ghost use Rattle.effects.specs.laws.Ranges.{CasesInside};
ghost use Rattle.effects.specs.laws.Form.{empty_range};
ghost use Rattle.effects.specs.laws.Operands.{slots, range_holds};
ghost use Rattle.effects.specs.declared.Range.{Range};

use crate::{Callees, Cell, Range, Tables, demand, plain, ranges, single, table};
use instruction::{Instruction, opcode};
use unit::entry;
use unit::refusal::Reason;

// The largest valid opcode.
pub const MAX_VALID: u8 = 135;

// All slots that a range may have.
const SLOTS: usize = 65536;

// The range is no effect error, and no slot of it is at or past the limit. An empty range is skipped, but starts below 65,536.
fn range_holds(limit: usize, r: Range) -> bool
    requires { limit ≤ slots }
    ensures { result ≡ range_holds limit r }
{
    if r.start > 65535 {
        return false;
    }
    if r.count == 0 {
        return true;
    }
    if r.count > 65535 {
        return false;
    }
    r.start + r.count <= limit
}

// The same of each of n ranges, which `range` gives by number.
fn each_holds<F: Fn(usize) -> Range>(limit: usize, n: usize, range: F) -> bool
    requires limit { limit ≤ slots }
    requires callable { (k : ℕ) → k < n → F.pre range k }
    ensures { (all : List Range) → n ≡ length all
        → ((k : ℕ) (r : Range) → k < n → F.post range k r → r ≡ get_or all k empty_range)
        → result ≡ all_of (range_holds limit) all }
{
    for k in 0..n {
        if !range_holds(limit, range(k)) {
            return false;
        }
    }
    true
}

fn reads_hold(limit: usize, x: Cell, tables: Tables) -> bool
    requires { (limit ≤ slots) × CasesInside tables.cases.now x }
    ensures { result ≡ all_of (range_holds limit) (all_reads (tables_in tables.entry) x) }
{
    each_holds(limit, ranges::read_count(x), |k| {
        ranges::read_range(k, x, tables)
    })
}

fn sure_hold(limit: usize, x: Cell, callees: Callees) -> bool
    requires { limit ≤ slots }
    ensures { (cases : List ℕ) → result ≡ all_of (range_holds limit) (sure_writes (tables_with cases callees.entry) x) }
{
    each_holds(limit, ranges::sure_count(x.instruction), |k| {
        ranges::sure_range(k, x, callees)
    })
}

// "Such a range is still checked against the frame"
fn perhaps_hold(limit: usize, x: Cell, cases: &[u8]) -> bool
    requires { (limit ≤ slots) × CasesInside cases.now x }
    ensures { (functions externs : List ℕ)
        → result ≡ all_of (range_holds limit) (perhaps_writes (tables_of functions externs cases.now) x) }
{
    each_holds(limit, ranges::perhaps_count(x), |k| {
        ranges::perhaps_range(k, x, cases)
    })
}

fn ranges_hold(limit: usize, x: Cell, tables: Tables) -> bool
    requires { (limit ≤ slots) × CasesInside tables.cases.now x }
    ensures { result ≡ all_of (range_holds limit) (all_reads (tables_in tables.entry) x ++ writes (tables_in tables.entry) x) }
{
    if !reads_hold(limit, x, tables) {
        return false;
    }
    if !sure_hold(limit, x, tables.callees) {
        return false;
    }
    perhaps_hold(limit, x, tables.cases)
}

// The refusal of a valid instruction's operands, by all its ranges.
fn ranges_refusal(locals: usize, x: Cell, tables: Tables) -> Option<Reason>
    requires { (locals ≤ max_local_slots) × (good_metadata (length tables.cases.now / case_size) x.metadata ≡ true) × (x.instruction.op ≤ max_valid) }
    ensures { test_number result ≡ operand_refusal locals (tables_in tables.entry) x }
{
    if !demand::demands_met(x, tables.callees) {
        return Some(Reason::EffectError);
    }
    if ranges_hold(locals, x, tables) {
        return None;
    }
    if ranges_hold(SLOTS, x, tables) {
        return Some(Reason::SlotOutside);
    }
    Some(Reason::EffectError)
}

// The same of any instruction, by its opcode's row.
fn row_refusal(locals: usize, w: u64, metadata: &[u8], p: usize, tables: &Tables) -> Option<Reason>
    requires { (locals ≤ max_local_slots) × (metadata_size * p + metadata_size ≤ length metadata.now) × (good_metadata (length tables.now.cases.now / case_size) (metadata_at metadata.now p) ≡ true) }
    ensures { test_number result ≡ operand_refusal locals (tables_in tables.now) (cell_of metadata.now p w) }
{
    let op = (w % 256) as u8;
    if op > MAX_VALID {
        return Some(Reason::InvalidOpcode);
    }
    let row = table::row(op);
    if !plain::is_plain(op, row) {
        let x = Cell {
            instruction: Instruction::from_word(w),
            metadata: entry::metadata(metadata, p),
        };
        return ranges_refusal(locals, x, *tables);
    }
    if plain::is_within(locals, row, w) {
        return None;
    }
    Some(Reason::SlotOutside)
}

// Why one instruction's operands are refused, by its word. "By lowest p: Invalid; effect error; a slot at or past s".
// The tables are lent, since they are handed over at each place and looked at at few.
pub fn operand_refusal(
    locals: usize,
    w: u64,
    metadata: &[u8],
    p: usize,
    tables: &Tables,
) -> Option<Reason>
    requires { (locals ≤ max_local_slots) × (metadata_size * p + metadata_size ≤ length metadata.now) × (good_metadata (length tables.now.cases.now / case_size) (metadata_at metadata.now p) ≡ true) }
    ensures { test_number result ≡ operand_refusal locals (tables_in tables.now) (cell_of metadata.now p w) }
{
    let class = opcode::class_of((w % 256) as u8);
    if !single::is_single(class) {
        return row_refusal(locals, w, metadata, p, tables);
    }
    if single::is_within(locals, class, w) {
        return None;
    }
    Some(Reason::SlotOutside)
}
