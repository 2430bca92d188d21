// The header's words, by the byte at which each stands: the counts, then where each section starts.
pub const INSTRUCTIONS: usize = 0;

pub const METADATA: usize = 4;

pub const LOCALS: usize = 8;

pub const TYPES: usize = 12;

pub const DEFER: usize = 16;

pub const CONSTANTS: usize = 20;

pub const FUNCTIONS: usize = 24;

pub const EXTERNS: usize = 28;

pub const CASES: usize = 32;

pub const CODE_AT: usize = 36;

pub const METADATA_AT: usize = 40;

pub const TYPES_AT: usize = 44;

pub const CONSTANTS_AT: usize = 48;

pub const FUNCTIONS_AT: usize = 52;

pub const EXTERNS_AT: usize = 56;

pub const CASES_AT: usize = 60;

// Document 02, L3: the lines' count and where they start.
pub const LINES: usize = 64;

pub const LINES_AT: usize = 68;
