// Relocation of one instruction and its metadata, and the check that it can be done.
ghost use Rattle.std.specs.Prelude.{◌≡◌, ℕ, ◌+◌, ◌*◌, ◌<◌, ◌≤◌, true, List, length, slice_index};
ghost use Rattle.instruction.specs.Instruction.{class, imm32_unsigned};
ghost use Rattle.unit.specs.declared.Metadata.{Metadata};
ghost use Rattle.unit.specs.Refusal.{test_number};
ghost use Rattle.unit.specs.Size.{max_instructions, metadata_size};
ghost use Rattle.effects.specs.laws.Cells.{cell_of, cells_by};
ghost use Rattle.flow.specs.Branch.{branches, target};
ghost use Rattle.flow.specs.laws.Control.{Controls};
ghost use Rattle.flow.specs.Loop.{is_loop_hint};
ghost use Rattle.pc_map.specs.Boundary.{is_kept};
ghost use Rattle.pc_map.specs.laws.Boundaries.{Mapped};
ghost use Rattle.pc_map.specs.Relocate.{moved_jump, moved_for_loop, relocate, relocation_check};
ghost use Rattle.pc_map.specs.laws.Relocated.{cell, moved_exit, relocation_test};
ghost use Rattle.pc_map.specs.laws.View.{is_retained};

use crate::view::PcMap;
use flow::{branch, hint};
use instruction::{Class, Instruction};
use unit::refusal::{Reason, Refusal};
use unit::{Metadata, entry};

// A jump goes to the boundary of its old target.
fn moved_jump(p: usize, i: Instruction, map: PcMap) -> Instruction
    requires { (p < length map.boundaries.now) × (length map.boundaries.now ≤ max_instructions + 1) × (target p i < length map.boundaries.now) }
    ensures { (keep : List ℕ) → Mapped keep map.entry.boundaries.now → result ≡ moved_jump keep p i }
{
    let t = branch::target(p, i) as usize;
    let to = map.boundary(t);
    let from = map.boundary(p);
    i.with_imm32(to.wrapping_sub(from))
}

// ForLoop too, from the next place. Distances never grow, so that 16 bits are enough.
fn moved_for_loop(p: usize, i: Instruction, map: PcMap) -> Instruction
    requires { (p + 1 < length map.boundaries.now) × (length map.boundaries.now ≤ max_instructions + 1) × (target p i < length map.boundaries.now) }
    ensures { (keep : List ℕ) → Mapped keep map.entry.boundaries.now → result ≡ moved_for_loop keep p i }
{
    let t = branch::target(p, i) as usize;
    let from = map.boundary(p).wrapping_add(1);
    let distance = map.boundary(t).wrapping_sub(from);
    let c = (distance % 65536) as u16;
    Instruction { c, ..i }
}

// A loop hint's exit goes to its boundary; a plain hint stays.
fn moved_hint(i: Instruction, map: PcMap) -> Instruction
    requires { is_loop_hint i ≡ true → imm32_unsigned i < length map.boundaries.now }
    ensures { (keep : List ℕ) → Mapped keep map.entry.boundaries.now → result ≡ moved_exit keep i }
{
    if hint::is_loop_hint(i) {
        let exit = i.imm32_unsigned() as usize;
        return i.with_imm32(map.boundary(exit));
    }
    i
}

// The instruction of place p, relocated.
pub fn relocate(p: usize, i: Instruction, map: PcMap) -> Instruction
    requires { (p + 1 < length map.boundaries.now) × (length map.boundaries.now ≤ max_instructions + 1) × (branches (class i) ≡ true → target p i < length map.boundaries.now) × (is_loop_hint i ≡ true → imm32_unsigned i < length map.boundaries.now) }
    ensures { (keep : List ℕ) → Mapped keep map.entry.boundaries.now → (d : Metadata) → result ≡ (relocate keep p (cell i d)).instruction }
{
    if !branch::ends_block(i.op) {
        return moved_hint(i, map);
    }
    let c = i.class();
    match c {
        Class::Jump | Class::JumpIf | Class::JumpIfNot => moved_jump(p, i, map),
        Class::ForLoop => moved_for_loop(p, i, map),
        _ => i,
    }
}

// Its metadata: a loop hint's end is an instruction that was retained, and goes with it.
pub fn relocate_metadata(i: Instruction, d: Metadata, map: PcMap) -> Metadata
    requires { is_loop_hint i ≡ true → is_retained map.boundaries.now d.end ≡ true }
    ensures { (keep : List ℕ) → Mapped keep map.entry.boundaries.now → (p : ℕ) → result ≡ (relocate keep p (cell i d)).metadata }
{
    if !hint::is_loop_hint(i) {
        return d;
    }
    match map.instruction(d.end as usize) {
        Some(end) => Metadata { end, ..d },
        None => d,
    }
}

// Is place q retained? None past the end is.
pub fn is_kept(keep: &[u32], q: usize) -> bool
    ensures { result ≡ is_kept keep.now q }
{
    q < keep.len() && keep[q] == 1
}

// Why the instruction at place p is refused.
fn relocation_refusal(words: &[u64], metadata: &[u8], keep: &[u32], p: usize) -> Option<Reason>
    requires { (p < length words.now) × (metadata_size * length words.now ≤ length metadata.now) × (length keep.now ≡ length words.now) }
    ensures { test_number result ≡ relocation_test keep.now (length words.now) p (cell_of metadata.now p (slice_index words.now p)) }
{
    let i = Instruction::from_word(words[p]);
    if !hint::is_loop_hint(i) {
        return None;
    }
    if keep[p] == 1 {
        let d = entry::metadata(metadata, p);
        let near = (i.imm32_unsigned() as usize) <= words.len();
        if !(near & is_kept(keep, d.end as usize)) {
            return Some(Reason::LostLoop);
        }
    }
    None
}

// Refusal 10, by the list of the control places.
pub fn check_relocation(
    words: &[u64],
    list: &[u64],
    metadata: &[u8],
    keep: &[u32],
) -> Result<(), Refusal>
    requires { (length words.now ≤ max_instructions) × (metadata_size * length words.now ≤ length metadata.now) × (length keep.now ≡ length words.now) × Controls words.now list.now (length words.now) }
    ensures { result ≡ relocation_check keep.now (cells_by words.now metadata.now) }
{
    for place in list {
        let p = *place as usize;
        if let Some(reason) = relocation_refusal(words, metadata, keep, p) {
            return Err(reason.at(p as u32));
        }
    }
    Ok(())
}
