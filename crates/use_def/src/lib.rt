// What one instruction reads and writes, as sets of slots, and whether its store is dead.
#![tactic(auto)]

pub mod dead;
pub mod row;
pub mod touch;
