// The places that are reached: a walk from place 0 with a stack in lent memory.
ghost use Rattle.std.specs.Prelude.{◌≡◌, ◌+◌, ◌*◌, ◌^◌, ◌<◌, ◌≤◌, [], ◌∷◌, length, if◌then◌else◌, slice_index};
ghost use borrow.Rule.Slice.PartMut.{mid_of, put_mid};
ghost use Rattle.unit.specs.laws.Region.{stack_end};
ghost use Rattle.unit.specs.Size.{metadata_size};
ghost use Rattle.effects.specs.laws.Cells.{cell_of, cells_by};
ghost use Rattle.flow.specs.Loop.{successors, reached_places};
ghost use Rattle.flow.specs.laws.Stack.{Pushed, Standing, marks_of, stack_of, Ran};
ghost use Rattle.flow.specs.laws.Successors.{near_successors, loop_successors_of, goes_on, following};

use crate::{branch, hint};
use effects::operands::MAX_VALID;
use instruction::Instruction;
use unit::{entry, region};

// The number v goes onto the stack, if it is to and is a place. The result is the stack's new height.
fn push_if(stack: &mut [u32], n: usize, sp: usize, when: bool, v: u64) -> usize
    requires { (n < 2 ^ 32) × (sp < length stack.old) }
    ensures { Pushed n sp (if when then v ∷ [] else []) stack.old stack.new result }
{
    if when {
        if v < n as u64 {
            stack[sp] = v as u32;
            return sp + 1;
        }
    }
    sp
}

// The next place and the branch's target.
fn push_near(stack: &mut [u32], n: usize, sp: usize, p: usize, i: Instruction) -> usize
    requires { (n < 2 ^ 32) × (p < n) × (sp + 2 ≤ length stack.old) }
    ensures { Pushed n sp (near_successors p i) stack.old stack.new result }
{
    let class = i.class();
    let next = push_if(stack, n, sp, branch::falls(class) == 1, p as u64 + 1);
    push_if(
        stack,
        n,
        next,
        branch::branches(class) == 1,
        branch::target(p, i),
    )
}

// A sound loop hint's end and exit.
fn push_loop(
    metadata: &[u8],
    stack: &mut [u32],
    n: usize,
    sp: usize,
    p: usize,
    i: Instruction,
) -> usize
    requires { (n < 2 ^ 32) × (metadata_size * p + metadata_size ≤ length metadata.now)
        × (sp + 2 ≤ length stack.old) }
    ensures { Pushed n sp (loop_successors_of n i metadata.now p) stack.old stack.new result }
{
    if hint::is_loop_hint(i) {
        let d = entry::metadata(metadata, p);
        if hint::is_sound(n, d) {
            let end = push_if(stack, n, sp, true, d.end as u64);
            return push_if(stack, n, end, true, i.imm32_unsigned() as u64);
        }
    }
    sp
}

// The successors of place p go onto the stack.
fn push_successors(words: &[u64], metadata: &[u8], stack: &mut [u32], sp: usize, p: usize) -> usize
    requires { (length words.now < 2 ^ 32) × (p < length words.now)
        × (metadata_size * length words.now ≤ length metadata.now) × (sp + 4 ≤ length stack.old) }
    ensures { Pushed (length words.now) sp (successors (length words.now) p (cell_of metadata.now p (slice_index words.now p))) stack.old stack.new result }
{
    let n = words.len();
    let i = Instruction::from_word(words[p]);
    let near = push_near(stack, n, sp, p, i);
    push_loop(metadata, stack, n, near, p, i)
}

// Is the next place the only successor, whatever the metadata? It is, but for what ends a block, hints and invalid opcodes.
fn goes_on(op: u8) -> bool
    ensures { result ≡ goes_on op }
{
    !branch::ends_block(op) & (op > 0) & (op <= MAX_VALID)
}

// Marks place `first`, which stands on the stack at `sp`, and the places after it as far as each only goes on to the next; the
// successors of the last one go onto the stack. Most places only go on, and a run need not wait to load what it has just stored.
// The result is the stack's new height.
fn mark_run(words: &[u64], metadata: &[u8], work: &mut [u32], sp: usize, first: usize) -> usize
    requires { (length words.now < 2 ^ 32) × (metadata_size * length words.now ≤ length metadata.now)
        × (stack_end (length words.now) ≤ length work.old)
        × Standing (length words.now) (following (cells_by words.now metadata.now)) (marks_of (length words.now) work.old) (stack_of (length words.now) work.old) (sp + 1)
        × (first ≡ slice_index work.old (length words.now + sp)) }
    ensures { Ran (length words.now) (following (cells_by words.now metadata.now)) work.old work.new sp result }
{
    let n = words.len();
    let end = region::stack_end(n);
    let mut p = first;
    // No range: where the run ends is not known before.
    while work[p] == 0 {
        work[p] = 1;
        if goes_on((words[p] % 256) as u8) & (p + 1 < n) {
            p += 1;
            work[n + sp] = p as u32;
        } else {
            return push_successors(words, metadata, &mut work[n..end], sp, p);
        }
    }
    sp
}

// Marks the places that are reached from place 0. Each is visited once, and has at most four successors. The marks stand first, and
// the stack after them.
pub fn mark_reached(words: &[u64], metadata: &[u8], work: &mut [u32])
    requires { (1 ≤ length words.now) × (length words.now < 2 ^ 32)
        × (metadata_size * length words.now ≤ length metadata.now)
        × (stack_end (length words.now) ≤ length work.old) }
    ensures { (mid_of 0 (length words.now) work.new ≡ reached_places (cells_by words.now metadata.now)) × (work.new ≡ put_mid 0 (stack_end (length words.now)) work.old (mid_of 0 (stack_end (length words.now)) work.new)) }
{
    let n = words.len();
    work[0..n].fill(0);
    work[n] = 0;
    let mut sp: usize = 1;
    // By `while`: the stack grows and shrinks.
    while sp > 0 {
        sp -= 1;
        let p = work[n + sp] as usize;
        sp = mark_run(words, metadata, work, sp, p);
    }
}
