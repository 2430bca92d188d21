// The range of each form, by the form's number (specs/Form.antt). Numbers, and no enum: a row packs seven of them into one word.
ghost use Rattle.std.specs.Prelude.{◌≡◌, cond, List, ℕ, ◌≤◌, ◌<◌};
ghost use Rattle.instruction.specs.Instruction.{of_word, static_call_func_id, call_shape_static_func_id};
ghost use Rattle.unit.specs.Entry.{function_at};
ghost use Rattle.unit.specs.declared.Metadata.{Metadata};
ghost use Rattle.effects.specs.Shape as shape;
ghost use Rattle.effects.specs.Shape.{range_of, tables_of, tables_with, param_slots, return_slots, extern_slots, value, arguments};
ghost use Rattle.effects.specs.laws.Form.{form_at, empty_range};
ghost use Rattle.effects.specs.laws.Plain.{slot_of};

use crate::{Callees, Cell, Range};
use instruction::Instruction;
use unit::{Callee, entry};

pub fn param_slots(f: Option<Callee>) -> usize
    ensures { (result ≡ param_slots f) × (result < 65536) }
{
    match f {
        Some(callee) => callee.params as usize,
        None => 0,
    }
}

fn return_slots(f: Option<Callee>) -> usize
    ensures { result ≡ return_slots f }
{
    match f {
        Some(callee) => callee.returns as usize,
        None => 0,
    }
}

fn extern_slots(f: Option<u16>) -> usize
    ensures { result ≡ extern_slots f }
{
    match f {
        Some(returns) => returns as usize,
        None => 0,
    }
}

// The function that Call names.
pub fn callee(i: Instruction, functions: &[u8]) -> Option<Callee>
    ensures { result ≡ function_at functions.now (static_call_func_id i) }
{
    entry::function(functions, i.static_call_func_id() as usize)
}

// The function that GoStart, DeferPush and ErrDeferPush name where they call no closure.
pub fn shape_callee(i: Instruction, functions: &[u8]) -> Option<Callee>
    ensures { result ≡ function_at functions.now (call_shape_static_func_id i) }
{
    entry::function(functions, i.call_shape_static_func_id() as usize)
}

// A closure's arguments are counted by its layout.
fn argument_slots(x: Cell, callees: Callees) -> usize
    ensures { (externs cases : List ℕ)
        → result ≡ value (tables_of callees.entry.functions.now externs cases) x arguments }
{
    if x.instruction.call_shape_is_closure() {
        x.metadata.first as usize
    } else {
        param_slots(shape_callee(x.instruction, callees.functions))
    }
}

// A range that is there only if the flags ask for it.
fn asked(flag: bool, start: usize, count: usize) -> Range
    ensures { result ≡ cond flag (record { start = start; count = count }) empty_range }
{
    if flag {
        Range { start, count }
    } else {
        Range { start: 0, count: 0 }
    }
}

// The field of an instruction's word that form 0, 1 or 2, one slot, names: most ranges are such, and this takes no jump by the form.
pub fn field(w: u64, form: u64) -> usize
    requires { form < 3 }
    ensures { result ≡ slot_of form (of_word w) }
{
    ((w >> (16 + 16 * form)) % 65536) as usize
}

pub fn slot(form: u64, i: Instruction) -> usize
    requires { form < 3 }
    ensures { result ≡ slot_of form i }
{
    field(i.word(), form)
}

fn slot_range(form: u64, i: Instruction) -> Range
    requires { form < 3 }
    ensures { (T : shape.Tables) (m : Metadata) → result ≡ range_of T (record { instruction = i; metadata = m }) (form_at form) }
{
    Range {
        start: slot(form, i),
        count: 1,
    }
}

// Other forms of the instruction's fields alone.
fn field_range(form: u64, i: Instruction) -> Range
    requires { (3 ≤ form) × (form < 18) }
    ensures { (T : shape.Tables) (m : Metadata) → result ≡ range_of T (record { instruction = i; metadata = m }) (form_at form) }
{
    let flags = i.flags as usize;
    let a = i.a as usize;
    let b = i.b as usize;
    let c = i.c as usize;
    match form {
        3 => Range { start: a, count: 2 },
        4 => Range { start: b, count: 2 },
        5 => Range { start: c, count: 2 },
        6 => Range { start: a, count: 7 },
        7 => Range { start: b, count: 7 },
        8 => Range { start: 0, count: 1 },
        9 => Range { start: a, count: b },
        10 => Range { start: a, count: c },
        11 => Range { start: b, count: c },
        12 => Range {
            start: a,
            count: flags,
        },
        13 => Range {
            start: b,
            count: flags,
        },
        14 => asked(flags / 4 % 2 == 1, b + 1, 5),
        15 => asked(flags / 2 % 2 == 1, c + 2, 1),
        16 => asked(flags == 16, b + 1, 1),
        _ => asked(i.call_shape_is_closure(), a, 1),
    }
}

// The form of MapIterNext's key and value, from a on.
pub const KEY_AND_VALUE: u64 = 24;

// Forms of the metadata's lengths.
pub fn layout_range(form: u64, x: Cell) -> Range
    requires { (18 ≤ form) × (form < 29) }
    ensures { (T : shape.Tables) → result ≡ range_of T x (form_at form) }
{
    let a = x.instruction.a as usize;
    let b = x.instruction.b as usize;
    let c = x.instruction.c as usize;
    let first = x.metadata.first as usize;
    let second = x.metadata.second as usize;
    let flag = (x.instruction.flags % 2) as usize;
    let ok = x.metadata.ok as usize;
    let array = (x.metadata.array as usize) * first;
    match form {
        18 => Range {
            start: a,
            count: first,
        },
        19 => Range {
            start: b,
            count: first,
        },
        20 => Range {
            start: c,
            count: first,
        },
        21 => Range {
            start: c + 1,
            count: first,
        },
        22 => Range {
            start: c,
            count: second,
        },
        23 => Range {
            start: b + first,
            count: second,
        },
        KEY_AND_VALUE => Range {
            start: a,
            count: first + second,
        },
        25 => Range {
            start: a,
            count: first + flag,
        },
        26 => Range {
            start: a,
            count: second + ok,
        },
        27 => Range {
            start: a,
            count: array,
        },
        _ => Range {
            start: b,
            count: array,
        },
    }
}

// Forms of the function or the extern that is called.
fn call_range(form: u64, x: Cell, callees: Callees) -> Range
    requires { 29 ≤ form }
    ensures { (cases : List ℕ) → result ≡ range_of (tables_with cases callees.entry) x (form_at form) }
{
    let a = x.instruction.a as usize;
    let b = x.instruction.b as usize;
    match form {
        29 => Range {
            start: b,
            count: param_slots(callee(x.instruction, callees.functions)),
        },
        30 => Range {
            start: b + param_slots(callee(x.instruction, callees.functions)),
            count: return_slots(callee(x.instruction, callees.functions)),
        },
        31 => Range {
            start: a,
            count: extern_slots(entry::extern_of(callees.externs, x.instruction.b as usize)),
        },
        32 => Range {
            start: b,
            count: argument_slots(x, callees),
        },
        _ => Range { start: 0, count: 0 },
    }
}

pub fn range_of(form: u64, x: Cell, callees: Callees) -> Range
    ensures { (cases : List ℕ) → result ≡ range_of (tables_with cases callees.entry) x (form_at form) }
{
    if form < 3 {
        return slot_range(form, x.instruction);
    }
    if form < 18 {
        return field_range(form, x.instruction);
    }
    if form < 29 {
        return layout_range(form, x);
    }
    call_range(form, x, callees)
}
