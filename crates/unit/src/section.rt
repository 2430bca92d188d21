// The sections, each handed back as a part of the unit.
#![tactic(auto, unfolding(crate::specs::Layout::header_of))]

ghost use Rattle.std.specs.Prelude.{◌≡◌, true, ◌+◌, ◌*◌, ◌^◌, ◌≤◌, ◌<◌, length};
ghost use borrow.Rule.Slice.PartMut.{mid_of};
ghost use Rattle.words.specs.Le.{u32_at};
ghost use Rattle.unit.specs.Size.{header_size};
ghost use Rattle.unit.specs.Layout.{is_unit, code_of, metadata_of, types_of, constants_of, functions_of, externs_of, cases_of, lines_of};

use crate::{field, size};
use words::le;

// The bytes of the header at which a section's start and its number of entries stand, and the bytes of an entry.
#[derive(Clone, Copy)]
pub struct Section {
    pub offset: usize,
    pub count: usize,
    pub size: usize,
    ghost start_in_header: { offset ≤ 68 },
    ghost count_in_header: { count ≤ 68 },
    ghost small: { size ≤ 16 },
}

pub const CODE: Section = Section {
    offset: field::CODE_AT,
    count: field::INSTRUCTIONS,
    size: size::INSTRUCTION,
};

pub const METADATA: Section = Section {
    offset: field::METADATA_AT,
    count: field::METADATA,
    size: size::METADATA,
};

pub const TYPES: Section = Section {
    offset: field::TYPES_AT,
    count: field::TYPES,
    size: size::TYPE,
};

pub const CONSTANTS: Section = Section {
    offset: field::CONSTANTS_AT,
    count: field::CONSTANTS,
    size: size::CONSTANT,
};

pub const FUNCTIONS: Section = Section {
    offset: field::FUNCTIONS_AT,
    count: field::FUNCTIONS,
    size: size::FUNCTION,
};

pub const EXTERNS: Section = Section {
    offset: field::EXTERNS_AT,
    count: field::EXTERNS,
    size: size::EXTERN,
};

pub const CASES: Section = Section {
    offset: field::CASES_AT,
    count: field::CASES,
    size: size::CASE,
};

pub const LINES: Section = Section {
    offset: field::LINES_AT,
    count: field::LINES,
    size: size::LINE,
};

// The header's number at a byte.
pub fn word(unit: &[u8], at: usize) -> usize
    requires { (header_size ≤ length unit.now) × (at ≤ 68) }
    ensures { (result ≡ u32_at unit.now at) × (result < 2 ^ 32) }
{
    le::read_u32(unit, at) as usize
}

// The byte past a section.
pub fn past(unit: &[u8], s: Section) -> usize
    requires { header_size ≤ length unit.now }
    ensures { result ≡ u32_at unit.now s.offset + s.size * u32_at unit.now s.count }
{
    word(unit, s.offset) + s.size * word(unit, s.count)
}

// A section.
pub fn part(unit: &[u8], s: Section) -> &[u8]
    requires header { header_size ≤ length unit.now }
    requires within { u32_at unit.now s.offset + s.size * u32_at unit.now s.count ≤ length unit.now }
    ensures { result.now ≡ mid_of (u32_at unit.now s.offset) (s.size * u32_at unit.now s.count) unit.now }
{
    let start = word(unit, s.offset);
    let end = past(unit, s);
    &unit[start..end]
}

pub fn code(unit: &[u8]) -> &[u8]
    requires { is_unit unit.now ≡ true }
    ensures { result.now ≡ code_of unit.now }
{
    part(unit, CODE)
}

pub fn metadata(unit: &[u8]) -> &[u8]
    requires { is_unit unit.now ≡ true }
    ensures { result.now ≡ metadata_of unit.now }
{
    part(unit, METADATA)
}

pub fn types(unit: &[u8]) -> &[u8]
    requires { is_unit unit.now ≡ true }
    ensures { result.now ≡ types_of unit.now }
{
    part(unit, TYPES)
}

pub fn constants(unit: &[u8]) -> &[u8]
    requires { is_unit unit.now ≡ true }
    ensures { result.now ≡ constants_of unit.now }
{
    part(unit, CONSTANTS)
}

pub fn functions(unit: &[u8]) -> &[u8]
    requires { is_unit unit.now ≡ true }
    ensures { result.now ≡ functions_of unit.now }
{
    part(unit, FUNCTIONS)
}

pub fn externs(unit: &[u8]) -> &[u8]
    requires { is_unit unit.now ≡ true }
    ensures { result.now ≡ externs_of unit.now }
{
    part(unit, EXTERNS)
}

pub fn cases(unit: &[u8]) -> &[u8]
    requires { is_unit unit.now ≡ true }
    ensures { result.now ≡ cases_of unit.now }
{
    part(unit, CASES)
}

pub fn lines(unit: &[u8]) -> &[u8]
    requires { is_unit unit.now ≡ true }
    ensures { result.now ≡ lines_of unit.now }
{
    part(unit, LINES)
}
