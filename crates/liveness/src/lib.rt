// Live slots, and stores that nothing reads. The sets lie in one lent buffer, by where they start, since the library takes no memory
// of its own.
#![tactic(auto)]

mod block;
pub mod out;
mod round;
pub mod solve;
pub mod stores;
pub mod sweep;

// Where sets of slots lie in one buffer of words: behind the code's words one set, and then, for each of the blocks, the set that
// it uses, the set that it preserves, and the set that is live at its start.
#[derive(Clone, Copy)]
pub struct SetLayout {
    pub code: usize,
    pub width: usize,
    pub count: usize,
    pub row: usize,
    pub uses: usize,
    pub preserved: usize,
    pub live: usize,
}

// Where the two sets of one block stand, and how many words each has.
#[derive(Clone, Copy)]
struct BlockSets {
    uses: usize,
    preserved: usize,
    width: usize,
}
