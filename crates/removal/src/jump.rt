// Jumps to the next retained instruction are dropped, in rounds. The work is that from the kept places on: these, in the end their
// boundaries, and the loop ends.
ghost use Rattle.std.specs.Prelude.{◌≡◌, false, List, ◌++◌, ℕ, ◌+◌, ◌≤◌, ◌<◌, length, get_or};
ghost use borrow.Rule.Slice.PartMut.{put_mid, mid_of};
ghost use Rattle.instruction.specs.Instruction.{of_word};
ghost use Rattle.unit.specs.laws.Region.{loop_ends_in};
ghost use Rattle.effects.specs.laws.Cells.{cells_by};
ghost use Rattle.flow.specs.laws.Control.{Controls};
ghost use Rattle.flow.specs.laws.Flags.{Flags};
ghost use Rattle.answer.specs.Jump.{drop_idle, jump_rounds};
ghost use Rattle.removal.specs.laws.Jumping.{Rounds, idle_in, ends_in, map_of};
ghost use Rattle.removal.specs.laws.Next.{kept_from};

use flow::branch;
use instruction::{Instruction, opcode};
use pc_map::boundary;
use unit::region;

// "up to 16 rounds"
const ROUNDS: usize = 16;

// The lowest kept place from `from` on and below `to`, or else `next`.
fn lowest_kept(work: &[u32], from: usize, to: usize, next: usize) -> usize
    requires { (from ≤ to) × (to ≤ length work.now) }
    ensures { (keep : List ℕ) → ((q : ℕ) → q < to → get_or work.now q 0 ≡ get_or keep q 0) → next ≡ kept_from keep to → result ≡ kept_from keep from }
{
    for p in from..to {
        if work[p] == 1 {
            return p;
        }
    }
    next
}

// "a Jump, not a loop end, whose target's boundary is its own plus 1": its target lies above p, and no higher than `next`, the next
// kept place.
fn is_idle(words: &[u64], work: &[u32], p: usize, kept: bool, next: usize) -> bool
    requires { Rounds words.now (length work.now) × (p < length words.now) }
    ensures { result ≡ idle_in (length words.now) work.now kept next p (of_word (get_or words.now p 0)) }
{
    if !kept {
        return false;
    }
    let i = Instruction::from_word(words[p]);
    if i.op != opcode::JUMP {
        return false;
    }
    let t = branch::target(p, i) as usize;
    if t > next {
        return false;
    }
    (p < t) & (work[region::loop_ends_in(words.len()) + p] != 1)
}

// One round "by the map of the round's start", by the list of the control places from the back. At each of them `next` is "the
// lowest above it that was retained then, or n": a flag is read before it is cleared, so that the round never counts its own drops.
// The answer is whether a jump was dropped.
fn drop_idle(words: &[u64], list: &[u64], work: &mut [u32]) -> bool
    requires { Rounds words.now (length work.old) × Controls words.now list.now (length words.now) × Flags (mid_of 0 (length words.now) work.old) }
    ensures { ((metadata : List ℕ) → work.new ≡ put_mid 0 (length words.now) work.old (drop_idle (ends_in (length words.now) work.old) (cells_by words.now metadata) (mid_of 0 (length words.now) work.old))) × (result ≡ false → work.new ≡ work.old) }
{
    let mut dropped = false;
    let mut next = words.len();
    let mut end = words.len();
    for place in list.iter().rev() {
        let p = *place as usize;
        next = lowest_kept(&work[..], p + 1, end, next);
        let kept = work[p] == 1;
        let idle = is_idle(words, &work[..], p, kept, next);
        if idle {
            work[p] = 0;
            dropped = true;
        }
        if kept {
            next = p;
        }
        end = p;
    }
    dropped
}

// "up to 16 rounds": one that drops nothing is the last.
fn drop_rounds(words: &[u64], list: &[u64], work: &mut [u32])
    requires { Rounds words.now (length work.old) × Controls words.now list.now (length words.now) × Flags (mid_of 0 (length words.now) work.old) }
    ensures { (metadata : List ℕ) → work.new ≡ put_mid 0 (length words.now) work.old (jump_rounds 16 (ends_in (length words.now) work.old) (cells_by words.now metadata) (mid_of 0 (length words.now) work.old)) }
{
    for _ in 0..ROUNDS {
        if !drop_idle(words, list, work) {
            return;
        }
    }
}

// The rounds, and the map of the places that are kept then.
pub fn drop_jumps(words: &[u64], list: &[u64], work: &mut [u32])
    requires { Rounds words.now (length work.old) × Controls words.now list.now (length words.now) × Flags (mid_of 0 (length words.now) work.old) }
    ensures { (metadata keep : List ℕ) → keep ≡ jump_rounds 16 (ends_in (length words.now) work.old) (cells_by words.now metadata) (mid_of 0 (length words.now) work.old) → work.new ≡ put_mid 0 (loop_ends_in (length words.now)) work.old (keep ++ map_of keep) }
{
    drop_rounds(words, list, work);
    boundary::boundaries(work, words.len());
}
