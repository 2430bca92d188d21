// Loop hints: the check of the reached ones, and the loop ends that they anchor.
ghost use Rattle.std.specs.Prelude.{◌≡◌, ◌+◌, ◌*◌, ◌^◌, ◌<◌, ◌≤◌, ◌&&◌, [], ◌∷◌, length, if◌then◌else◌, ◌==◌, nat_eq, nat_lt, slice_index};
ghost use borrow.Rule.Slice.PartMut.{mid_of, put_mid};
ghost use Rattle.unit.specs.Entry.{kind_loop_end, metadata_at};
ghost use Rattle.unit.specs.Refusal.{test_number};
ghost use Rattle.unit.specs.Size.{metadata_size};
ghost use Rattle.effects.specs.laws.Cells.{cell_of, cells_by};
ghost use Rattle.flow.specs.laws.Control.{Controls};
ghost use Rattle.flow.specs.laws.Hints.{loop_test};
ghost use Rattle.flow.specs.Loop.{is_loop_hint, loop_check, anchors};
ghost use Rattle.flow.specs.Reach.{mark_all};

use crate::mark;
use instruction::{Instruction, opcode};
use unit::refusal::{Reason, Refusal};
use unit::{Metadata, entry, kind};

pub fn is_loop_hint(i: Instruction) -> bool
    ensures { result ≡ is_loop_hint i }
{
    (i.op == opcode::HINT) & (i.flags == 1)
}

// Is it LoopEnd with an end inside?
pub fn is_sound(n: usize, d: Metadata) -> bool
    ensures { result ≡ (d.kind == kind_loop_end && nat_lt d.end n) }
{
    (d.kind == kind::LOOP_END) & ((d.end as usize) < n)
}

// Why the instruction at place p is refused.
fn loop_refusal(words: &[u64], metadata: &[u8], marks: &[u32], p: usize) -> Option<Reason>
    requires { (p < length words.now) × (metadata_size * length words.now ≤ length metadata.now)
        × (length marks.now ≡ length words.now) }
    ensures { test_number result ≡ loop_test marks.now (length words.now) p (cell_of metadata.now p (slice_index words.now p)) }
{
    if !is_loop_hint(Instruction::from_word(words[p])) {
        return None;
    }
    if marks[p] == 1 {
        if !is_sound(words.len(), entry::metadata(metadata, p)) {
            return Some(Reason::UnsoundLoop);
        }
    }
    None
}

// Refusal 9, of the places that are reached, by the list of the control places.
pub fn check_loops(
    words: &[u64],
    list: &[u64],
    metadata: &[u8],
    marks: &[u32],
) -> Result<(), Refusal>
    requires { (length words.now < 2 ^ 32) × (metadata_size * length words.now ≤ length metadata.now)
        × (length marks.now ≡ length words.now) × Controls words.now list.now (length words.now) }
    ensures { result ≡ loop_check marks.now (cells_by words.now metadata.now) }
{
    for place in list {
        let p = *place as usize;
        if let Some(reason) = loop_refusal(words, metadata, marks, p) {
            return Err(reason.at(p as u32));
        }
    }
    Ok(())
}

// Marks the end of a reached loop hint.
fn mark_end(metadata: &[u8], ends: &mut [u32], reached: u32, p: usize, i: Instruction)
    requires { metadata_size * p + metadata_size ≤ length metadata.now }
    ensures { ends.new ≡ mark_all ends.old (if nat_eq reached 1 && is_loop_hint i then (metadata_at metadata.now p).end ∷ [] else []) }
{
    if (reached == 1) & is_loop_hint(i) {
        let d = entry::metadata(metadata, p);
        mark::mark_if(ends, true, d.end as u64);
    }
}

// Marks the ends of the reached loop hints, by the list of the control places. The marks of the reached places stand first, the ends from `at` on.
pub fn mark_anchors(words: &[u64], list: &[u64], metadata: &[u8], work: &mut [u32], at: usize)
    requires { (length words.now < 2 ^ 32) × (metadata_size * length words.now ≤ length metadata.now)
        × (length words.now ≤ at) × (at + length words.now ≤ length work.old)
        × Controls words.now list.now (length words.now) }
    ensures { work.new ≡ put_mid at (length words.now) work.old (anchors (mid_of 0 (length words.now) work.old) (cells_by words.now metadata.now)) }
{
    let n = words.len();
    let end = at + n;
    work[at..end].fill(0);
    for place in list {
        let p = *place as usize;
        let reached = work[p];
        let i = Instruction::from_word(words[p]);
        mark_end(metadata, &mut work[at..end], reached, p, i);
    }
}
