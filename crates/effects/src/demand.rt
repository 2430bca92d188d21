// What must be there, or an instruction's effects are an error: "a wrong metadata kind and a missing function or extern".
ghost use Rattle.std.specs.Prelude.{◌≡◌, ◌||◌, List, ℕ, ◌≤◌, eqb};
ghost use Rattle.unit.specs.Entry.{kind_call_layout, kind_call_iface_layout, kind_call_extern_layout};
ghost use Rattle.effects.specs.Shape.{tables_of, tables_with, is_there, is_known, met, call_shape};
ghost use Rattle.effects.specs.Effects.{demands_met};
ghost use Rattle.effects.specs.laws.Form.{demand_at};

use crate::{Callees, Cell, form, table};
use unit::{Callee, entry, kind};

#[tactic(auto, unfolding(crate::specs::Shape::is_there))]
fn is_there(f: Option<Callee>) -> bool
    ensures { result ≡ is_there f }
{
    f.is_some()
}

#[tactic(auto, unfolding(crate::specs::Shape::is_known))]
fn is_known(f: Option<u16>) -> bool
    ensures { result ≡ is_known f }
{
    f.is_some()
}

fn is_call_layout(kind: u8) -> bool
    ensures { result ≡ (eqb kind kind_call_layout || eqb kind kind_call_iface_layout || eqb kind kind_call_extern_layout) }
{
    (kind == kind::CALL_LAYOUT)
        | (kind == kind::CALL_IFACE_LAYOUT)
        | (kind == kind::CALL_EXTERN_LAYOUT)
}

fn is_result_layout(kind: u8) -> bool
    ensures { result ≡ (eqb kind kind_call_layout || eqb kind kind_call_iface_layout) }
{
    (kind == kind::CALL_LAYOUT) | (kind == kind::CALL_IFACE_LAYOUT)
}

// GoStart, DeferPush and ErrDeferPush call a closure or a function.
fn call_shape_met(x: Cell, callees: Callees) -> bool
    ensures { (externs cases : List ℕ) → result ≡ met (tables_of callees.entry.functions.now externs cases) x call_shape }
{
    if x.instruction.call_shape_is_closure() {
        is_call_layout(x.metadata.kind)
    } else {
        is_there(form::shape_callee(x.instruction, callees.functions))
    }
}

// Demands that no single metadata kind meets.
fn call_met(demand: u32, x: Cell, callees: Callees) -> bool
    requires { 16 ≤ demand }
    ensures { (cases : List ℕ) → result ≡ met (tables_with cases callees.entry) x (demand_at demand) }
{
    match demand {
        16 => is_call_layout(x.metadata.kind),
        17 => is_result_layout(x.metadata.kind),
        18 => is_there(form::callee(x.instruction, callees.functions)),
        19 => is_known(entry::extern_of(callees.externs, x.instruction.b as usize)),
        _ => call_shape_met(x, callees),
    }
}

// A demand below 16 is that metadata kind, 0 none.
fn is_met(demand: u32, x: Cell, callees: Callees) -> bool
    ensures { (cases : List ℕ) → result ≡ met (tables_with cases callees.entry) x (demand_at demand) }
{
    if demand == 0 {
        return true;
    }
    if demand < 16 {
        return (x.metadata.kind as u32) == demand;
    }
    call_met(demand, x, callees)
}

pub fn demands_met(x: Cell, callees: Callees) -> bool
    ensures { (cases : List ℕ) → result ≡ demands_met (tables_with cases callees.entry) x }
{
    let op = x.instruction.op;
    let row = table::demand_row(op);
    if row == 0 {
        return true;
    }
    is_met(row % 256, x, callees)
        & is_met(row / 256 % 256, x, callees)
        & is_met(row / 65536, x, callees)
}
