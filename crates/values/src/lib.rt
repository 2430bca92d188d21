// The table of values within a block, by value numbers. It lives in words that are lent, with regions, lengths and links as numbers,
// and in no map, since the library takes no memory of its own.
#![tactic(auto)]

pub mod entries;
pub mod fold;
pub mod region;
pub mod table;

// The value of a slot: a known 64-bit integer, a float constant's bits, or what the instruction at a place gave to a slot.
#[derive(Clone, Copy)]
pub enum Atom {
    Integer(u64),
    Float(u64),
    Definition(u32, u16),
}
