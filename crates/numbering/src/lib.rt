// Value numbering within blocks.
#![tactic(auto)]

pub mod walk;
