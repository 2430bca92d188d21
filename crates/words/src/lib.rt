// Numbers in lent memory: little-endian fields of byte slices, arithmetic on 64-bit words, and sets of
// small numbers as bits of words.
#![tactic(auto)]

pub mod bits;
pub mod bytes;
pub mod le;
pub mod word;
