// Where control goes: branch targets, blocks, loop hints, control places, and the places that are reached.
#![tactic(auto)]

pub mod block;
pub mod branch;
pub mod control;
pub mod hint;
mod mark;
pub mod reach;
