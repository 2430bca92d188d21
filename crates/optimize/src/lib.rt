// One pass over a function: `optimize_function`. What it makes of the function is found out first, and then written.
#![tactic(auto)]

mod code;
pub mod function;
pub mod pass;

// What a pass answers where it does not refuse: unchanged, or rewritten to so many instructions.
#[derive(Clone, Copy)]
pub enum Answer {
    Unchanged,
    Rewritten(u32),
}
