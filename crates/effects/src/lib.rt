// What each instruction reads and writes, as ranges of slots, and the check of every operand.
#![tactic(auto)]

ghost use Rattle.std.specs.Prelude.{◌≡◌, true};
ghost use Rattle.unit.specs.Layout.{is_unit, functions_of, externs_of, cases_of};

pub mod branching;
pub mod demand;
pub mod form;
pub mod operands;
pub mod plain;
pub mod ranges;
pub mod select;
pub mod single;
pub mod table;

use instruction::Instruction;
use unit::{Metadata, section};

// What may be called: the sections of a unit by which calls are checked.
#[derive(Clone, Copy)]
pub struct Callees<'a> {
    pub functions: &'a [u8],
    pub externs: &'a [u8],
}

// The sections of a unit that effects look at.
#[derive(Clone, Copy)]
pub struct Tables<'a> {
    pub callees: Callees<'a>,
    pub cases: &'a [u8],
}

impl<'a> Tables<'a> {
    // Those of a unit.
    pub fn of_unit(unit: &'a [u8]) -> Tables<'a>
        requires { is_unit unit.now ≡ true }
        ensures functions { result.callees.functions.now ≡ functions_of unit.now }
        ensures externs { result.callees.externs.now ≡ externs_of unit.now }
        ensures cases { result.cases.now ≡ cases_of unit.now }
    {
        Tables {
            callees: Callees {
                functions: section::functions(unit),
                externs: section::externs(unit),
            },
            cases: section::cases(unit),
        }
    }
}

// An instruction with its metadata.
#[derive(Clone, Copy)]
pub struct Cell {
    pub instruction: Instruction,
    pub metadata: Metadata,
}

// `count` slots from `start`.
#[derive(Clone, Copy)]
pub struct Range {
    pub start: usize,
    pub count: usize,
}
