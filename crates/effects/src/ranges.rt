// The ranges of slots that an instruction reads, surely writes and perhaps writes, by number. They stand for the Rust's visitor closures.
ghost use Rattle.std.specs.Prelude.{◌≡◌, List, [], ℕ, ◌/◌, ◌%◌, ◌^◌, ◌<◌, length, get_or};
ghost use Rattle.unit.specs.declared.Metadata.{Metadata};
ghost use Rattle.effects.specs.Shape as shape;
ghost use Rattle.effects.specs.Shape.{tables_of, tables_in, tables_with};
ghost use Rattle.effects.specs.Effects.{all_reads, sure_writes, perhaps_writes};
ghost use Rattle.effects.specs.laws.Form.{empty_range};
ghost use Rattle.effects.specs.laws.Ranges.{CasesInside};

use crate::{Callees, Cell, Range, Tables, form, select, table};
use instruction::{Instruction, opcode};

// The k-th of packed forms.
fn form_at(forms: u64, k: usize) -> u64
    requires { k < 8 }
    ensures { result ≡ forms / 256 ^ k % 256 }
{
    (forms >> (8 * k)) % 256
}

// How many ranges are read, the array range of a Slot opcode with them; of SelectExec two for each case.
pub fn read_count(x: Cell) -> usize
    ensures { (T : shape.Tables) → result ≡ length (all_reads T x) }
{
    let op = x.instruction.op;
    if op == opcode::SELECT_EXEC {
        return 2 * (x.metadata.second as usize);
    }
    (table::row(op) % 16) as usize
}

pub fn read_range(k: usize, x: Cell, tables: Tables) -> Range
    requires { (k < length (all_reads (tables_in tables) x)) × CasesInside tables.cases.now x }
    ensures { result ≡ get_or (all_reads (tables_in tables.entry) x) k empty_range }
{
    let op = x.instruction.op;
    if op == opcode::SELECT_EXEC {
        return select::case_read(k, x.metadata, tables.cases);
    }
    let form = form_at(table::row(op) / 256, k);
    form::range_of(form, x, tables.callees)
}

// How many ranges are surely written.
pub fn sure_count(i: Instruction) -> usize
    ensures { (T : shape.Tables) (m : Metadata) → result ≡ length (sure_writes T (record { instruction = i; metadata = m })) }
{
    (table::row(i.op) / 16 % 16) as usize
}

// No case is looked at.
pub fn sure_range(k: usize, x: Cell, callees: Callees) -> Range
    requires { k < length (sure_writes (tables_with [] callees) x) }
    ensures { (cases : List ℕ) → result ≡ get_or (sure_writes (tables_with cases callees.entry) x) k empty_range }
{
    let form = form_at(table::row(x.instruction.op) / 1099511627776, k);
    form::range_of(form, x, callees)
}

// How many ranges are perhaps written: of SelectExec one for each case, of MapIterNext key and value, of others none.
pub fn perhaps_count(x: Cell) -> usize
    ensures { (T : shape.Tables) → result ≡ length (perhaps_writes T x) }
{
    let op = x.instruction.op;
    match op {
        opcode::SELECT_EXEC => x.metadata.second as usize,
        opcode::MAP_ITER_NEXT => 1,
        _ => 0,
    }
}

// Nothing that is called is looked at.
pub fn perhaps_range(k: usize, x: Cell, cases: &[u8]) -> Range
    requires { (k < length (perhaps_writes (tables_of [] [] cases.now) x)) × CasesInside cases.now x }
    ensures { (functions externs : List ℕ)
        → result ≡ get_or (perhaps_writes (tables_of functions externs cases.now) x) k empty_range }
{
    if x.instruction.op == opcode::SELECT_EXEC {
        return select::case_write(k, x.metadata, cases);
    }
    form::layout_range(form::KEY_AND_VALUE, x)
}
