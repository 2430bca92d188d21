// What an instruction reads and writes, as sets of slots.
ghost use Rattle.std.specs.Prelude.{◌≡◌, ℕ, ◌+◌, ◌*◌, ◌<◌, ◌≤◌, true, false, List, length, nat_eq, slice_index_or};
ghost use Rattle.words.specs.laws.Bits.{member};
ghost use Rattle.instruction.specs.Instruction.{of_word, class};
ghost use Rattle.unit.specs.declared.Metadata.{Metadata};
ghost use Rattle.unit.specs.Entry.{metadata_at};
ghost use Rattle.unit.specs.Size.{metadata_size};
ghost use Rattle.effects.specs.Shape as shape;
ghost use Rattle.effects.specs.Shape.{tables_in, tables_with};
ghost use Rattle.effects.specs.Effects.{all_reads};
ghost use Rattle.effects.specs.laws.Form.{empty_range};
ghost use Rattle.effects.specs.laws.Ranges.{CasesInside};
ghost use Rattle.effects.specs.laws.ByClass.{is_outside, reads_by_class, writes_by_class};
ghost use Rattle.use_def.specs.laws.Sets.{Put, Same};
ghost use Rattle.use_def.specs.laws.Touched.{cell, Within, reading, writing, Fits, WritesFit, Before};
ghost use Rattle.use_def.specs.laws.SingleSets.{SingleFits};
ghost use Rattle.use_def.specs.laws.BranchSets.{BranchFits};
ghost use Rattle.use_def.specs.laws.PlainSets.{SameRanges};

use crate::row;
use effects::{Callees, Cell, Range, Tables, branching, form, plain, ranges, single, table};
use instruction::{Class, Instruction};
use unit::{Metadata, entry};

fn slots(start: u16, count: u16) -> Range
    ensures { result ≡ record { start = start; count = count } }
{
    Range {
        start: start as usize,
        count: count as usize,
    }
}

// Are its ranges not known by the class alone?
#[tactic(auto, unfolding(effects::specs::laws::ByClass::is_outside))]
fn is_outside(c: Class) -> bool
    ensures { result ≡ is_outside c }
{
    matches!(c, Class::Outside | Class::Invalid)
}

// The first range that an instruction of that class reads.
fn first_read(c: Class, i: Instruction) -> Range
    ensures { result ≡ slice_index_or (reads_by_class c i) 0 empty_range }
{
    match c {
        Class::Copy | Class::Unary | Class::Binary => slots(i.b, 1),
        Class::CopyN => slots(i.b, i.c),
        Class::JumpIf | Class::JumpIfNot | Class::ForLoop => slots(i.a, 1),
        Class::Return => slots(i.a, i.b),
        Class::Panic => slots(i.a, 2),
        _ => slots(0, 0),
    }
}

fn second_read(c: Class, i: Instruction) -> Range
    ensures { result ≡ slice_index_or (reads_by_class c i) 1 empty_range }
{
    match c {
        Class::Binary => slots(i.c, 1),
        Class::ForLoop => slots(i.b, 1),
        _ => slots(0, 0),
    }
}

// The range that it writes.
pub fn write(c: Class, i: Instruction) -> Range
    ensures { result ≡ slice_index_or (writes_by_class c i) 0 empty_range }
{
    match c {
        Class::LoadInt
        | Class::LoadConst
        | Class::Copy
        | Class::Unary
        | Class::Binary
        | Class::ForLoop => slots(i.a, 1),
        Class::CopyN => slots(i.a, i.c),
        _ => slots(0, 0),
    }
}

// Range by range, for every opcode. This and the next are no one function over the ranges: what each says of them would make a
// contract longer than both loops.
fn put_each_read(row: &mut [u64], x: Cell, tables: Tables)
    requires { (length row.old ≤ 1024) × CasesInside tables.cases.now x × Within (64 * length row.old) (all_reads (tables_in tables) x) }
    ensures { Put true (reading (tables_in tables.entry) x) row.old row.new }
{
    let n = ranges::read_count(x);
    for k in 0..n {
        let r = ranges::read_range(k, x, tables);
        row::put_range(row, r, true);
    }
}

// Only surely written ranges: a perhaps written one "no longer ends a slot's life".
fn put_each_write(row: &mut [u64], on: bool, x: Cell, callees: Callees)
    requires { WritesFit (length row.old) callees.functions.now callees.externs.now x }
    ensures { (cases : List ℕ) → Put on (writing (tables_with cases callees.entry) x) row.old row.new }
{
    let n = ranges::sure_count(x.instruction);
    for k in 0..n {
        let r = ranges::sure_range(k, x, callees);
        row::put_range(row, r, on);
    }
}

// Metadata with which the instruction has the ranges that it has with that of place p. Those of a plain opcode are the same with any:
// the first entry does, which is in a cache, while that of a place far from the one before seldom is.
fn ranges_metadata(i: Instruction, metadata: &[u8], p: usize) -> Metadata
    requires { metadata_size * p + metadata_size ≤ length metadata.now }
    ensures { SameRanges i result (metadata_at metadata.now p) }
{
    let op = i.op;
    let at = row::index_if(p, !plain::is_plain(op, table::row(op)));
    entry::metadata(metadata, at)
}

// By class, or by its metadata where the class does not tell.
pub fn put_reads(row: &mut [u64], i: Instruction, metadata: &[u8], p: usize, tables: Tables)
    requires { (metadata_size * p + metadata_size ≤ length metadata.now) × Fits (length row.old) (tables_in tables) (record { instruction = i; metadata = metadata_at metadata.now p }) }
    ensures { Put true (reading (tables_in tables.entry) (record { instruction = i; metadata = metadata_at metadata.now p })) row.old row.new }
{
    let c = i.class();
    if is_outside(c) {
        let x = Cell {
            instruction: i,
            metadata: ranges_metadata(i, metadata, p),
        };
        put_each_read(row, x, tables);
        return;
    }
    row::put_range(row, first_read(c, i), true);
    row::put_range(row, second_read(c, i), true);
}

pub fn put_writes(
    row: &mut [u64],
    on: bool,
    i: Instruction,
    metadata: &[u8],
    p: usize,
    callees: Callees,
)
    requires { (metadata_size * p + metadata_size ≤ length metadata.now) × WritesFit (length row.old) callees.functions.now callees.externs.now (record { instruction = i; metadata = metadata_at metadata.now p }) }
    ensures { (cases : List ℕ)
        → Put on (writing (tables_with cases callees.entry) (record { instruction = i; metadata = metadata_at metadata.now p })) row.old row.new }
{
    let c = i.class();
    if is_outside(c) {
        let x = Cell {
            instruction: i,
            metadata: ranges_metadata(i, metadata, p),
        };
        put_each_write(row, on, x, callees);
        return;
    }
    row::put_range(row, write(c, i), on);
}

// Takes out the slot that it writes.
pub fn take_single_write(row: &mut [u64], w: u64)
    requires { SingleFits (length row.old) w }
    ensures { ((T : shape.Tables) (m : Metadata) → Put false (writing T (cell w m)) row.old row.new) × Put false (λ t. nat_eq t (of_word w).a) row.old row.new }
{
    row::put(row, form::field(w, 0), false);
}

// Puts in the slots that it reads, unless its store is dead. Whether it is follows no pattern, so that nothing is put without a branch;
// loads read nothing, and to go past both puts there is worth one.
fn put_single_reads(row: &mut [u64], w: u64, c: Class, live: bool)
    requires { SingleFits (length row.old) w × (c ≡ class (of_word w)) }
    ensures { (live ≡ true → (T : shape.Tables) (m : Metadata) → Put true (reading T (cell w m)) row.old row.new) × (live ≡ false → Same row.old row.new) }
{
    if !single::reads_first(c) {
        return;
    }
    row::put_if(row, form::field(w, 1), live, true);
    let second = single::reads_second(c) & live;
    row::put_if(row, form::field(w, 2), second, true);
}

// What is live before it, of what is live after it. Of a dead store, whose slot is not live, nothing is put in: so the live slots stay,
// and the processor has no branch to predict. Where `live` is false although the slot is live, the row is free.
pub fn single_before(row: &mut [u64], w: u64, c: Class, live: bool)
    requires { SingleFits (length row.old) w × (c ≡ class (of_word w)) }
    ensures { (live ≡ true → (T : shape.Tables) (m : Metadata) → Before T (cell w m) row.old row.new) × (live ≡ false → member row.old (of_word w).a ≡ false → Same row.old row.new) }
{
    take_single_write(row, w);
    put_single_reads(row, w, c, live);
}

// Of a hint, a jump or a loop: takes out the slot that a loop writes.
pub fn take_loop_write(row: &mut [u64], w: u64, c: Class)
    requires { BranchFits (length row.old) w × (c ≡ class (of_word w)) }
    ensures { (T : shape.Tables) (m : Metadata) → Put false (writing T (cell w m)) row.old row.new }
{
    row::put_if(row, form::field(w, 0), branching::is_loop(c), false);
}

// Of the same, what is live before it: a loop reads the slot that it writes, so that no slot is taken out.
pub fn branch_before(row: &mut [u64], w: u64, c: Class)
    requires { BranchFits (length row.old) w × (c ≡ class (of_word w)) }
    ensures { (T : shape.Tables) (m : Metadata) → Before T (cell w m) row.old row.new }
{
    row::put_if(row, form::field(w, 0), branching::reads_condition(c), true);
    row::put_if(row, form::field(w, 1), branching::is_loop(c), true);
}

// What is live before the instruction at place p, of what is live after it.
pub fn live_before(row: &mut [u64], i: Instruction, metadata: &[u8], p: usize, tables: Tables)
    requires { (metadata_size * p + metadata_size ≤ length metadata.now) × Fits (length row.old) (tables_in tables) (record { instruction = i; metadata = metadata_at metadata.now p }) }
    ensures { Before (tables_in tables.entry) (record { instruction = i; metadata = metadata_at metadata.now p }) row.old row.new }
{
    put_writes(row, false, i, metadata, p, tables.callees);
    put_reads(row, i, metadata, p, tables);
}
