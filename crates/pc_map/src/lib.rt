// Places of the retained instructions, and relocation.
#![tactic(auto)]

pub mod boundary;
pub mod relocation;
pub mod retained;
pub mod view;
