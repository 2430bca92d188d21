// The unit: its header, its sections and their entries; the result's layout; the sizes of lent buffers.
#![tactic(auto)]

pub mod entry;
pub mod field;
pub mod kind;
pub mod refusal;
pub mod region;
pub mod result;
pub mod section;
pub mod size;

// How many entries each section has, and the function's local slots and defer flag.
#[derive(Clone, Copy)]
pub struct Counts {
    pub instructions: usize,
    pub metadata: usize,
    pub locals: usize,
    pub types: usize,
    pub defer: usize,
    pub constants: usize,
    pub functions: usize,
    pub externs: usize,
    pub cases: usize,
    pub lines: usize,
}

// The byte at which each section starts.
#[derive(Clone, Copy)]
pub struct Offsets {
    pub code: usize,
    pub metadata: usize,
    pub types: usize,
    pub constants: usize,
    pub functions: usize,
    pub externs: usize,
    pub cases: usize,
    pub lines: usize,
}

#[derive(Clone, Copy)]
pub struct Header {
    pub counts: Counts,
    pub offsets: Offsets,
}

#[derive(Clone, Copy)]
pub struct Metadata {
    pub kind: u8,
    pub ok: u8,
    pub array: u16,
    pub first: u32,
    pub second: u32,
    pub end: u32,
}

#[derive(Clone, Copy)]
pub enum Constant {
    Nil,
    Bool(u64),
    Int(u64),
    Float(u64),
    String,
}

// A function's parameter and return slots.
#[derive(Clone, Copy)]
pub struct Callee {
    pub params: u16,
    pub returns: u16,
}

#[derive(Clone, Copy)]
pub struct SelectCase {
    pub kind: u8,
    pub ok: u8,
    pub queue: u16,
    pub slot: u16,
    pub elements: u16,
}

// A place and its line.
#[derive(Clone, Copy)]
pub struct Line {
    pub place: u32,
    pub line: u32,
}
