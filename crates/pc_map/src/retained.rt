// The result of a pass: the retained instructions, relocated, section by section. The loops go over the list of the kept
// places, so that no place has to be tested.
ghost use Rattle.std.specs.Prelude.{◌≡◌, ℕ, ◌+◌, ◌*◌, ◌<◌, ◌≤◌, List, [], ◌∷◌, length, slice_index};
ghost use borrow.Rule.Slice.PartMut.{put_mid};
ghost use Rattle.instruction.specs.Instruction.{of_word};
ghost use Rattle.unit.specs.Result.{code_bytes, metadata_bytes_all, place_bytes, result_bytes};
ghost use Rattle.unit.specs.Size.{max_instructions, metadata_size, result_header_size, result_size};
ghost use Rattle.effects.specs.laws.Cells.{cell_of, cells_by};
ghost use Rattle.pc_map.specs.laws.Boundaries.{Mapped};
ghost use Rattle.pc_map.specs.laws.Listed.{kept_list, Listed};
ghost use Rattle.pc_map.specs.laws.Movable.{Movable, AllMovable, EndRetained, EndsRetained, Writable};
ghost use Rattle.pc_map.specs.Relocate.{retain_from};
ghost use Rattle.pc_map.specs.laws.Retaining.{retained_at};

use crate::relocation;
use crate::view::PcMap;
use instruction::Instruction;
use unit::{entry, result, size};
use words::le;

// The instruction of place p, from byte `at` on.
fn write_instruction(words: &[u64], map: PcMap, p: usize, out: &mut [u8], at: usize)
    requires { (length words.now ≤ max_instructions) × (length map.boundaries.now ≡ length words.now + 1) × (p < length words.now) × Movable (length words.now) p (of_word (slice_index words.now p)) × (at + 8 ≤ length out.old) }
    ensures { (keep metadata : List ℕ) → Mapped keep map.entry.boundaries.now → out.new ≡ put_mid at 8 out.old (code_bytes (retained_at keep p (cell_of metadata p (slice_index words.now p)) ∷ [])) }
{
    let i = relocation::relocate(p, Instruction::from_word(words[p]), map);
    instruction::write(out, at, i);
}

fn write_code(words: &[u64], map: PcMap, kept: &[u32], out: &mut [u8])
    requires { (length words.now ≤ max_instructions) × (length map.boundaries.now ≡ length words.now + 1) × AllMovable kept.now words.now × (result_header_size + 8 * length kept.now ≤ length out.old) }
    ensures { (keep metadata : List ℕ) → Listed keep map.entry.boundaries.now kept.now (length words.now) → out.new ≡ put_mid result_header_size (8 * length kept.now) out.old (code_bytes (retain_from keep 0 (cells_by words.now metadata))) }
{
    for (q, place) in kept.iter().enumerate() {
        let at = size::RESULT_HEADER + size::INSTRUCTION * q;
        write_instruction(words, map, *place as usize, out, at);
    }
}

// The metadata of place p, from byte `at` on.
fn write_entry(words: &[u64], metadata: &[u8], map: PcMap, p: usize, out: &mut [u8], at: usize)
    requires { (metadata_size * length words.now ≤ length metadata.now) × (length map.boundaries.now ≡ length words.now + 1) × (p < length words.now) × EndRetained words.now metadata.now map.boundaries.now p × (at + 16 ≤ length out.old) }
    ensures { (keep : List ℕ) → Mapped keep map.entry.boundaries.now → out.new ≡ put_mid at 16 out.old (metadata_bytes_all (retained_at keep p (cell_of metadata.now p (slice_index words.now p)) ∷ [])) }
{
    let i = Instruction::from_word(words[p]);
    let d = relocation::relocate_metadata(i, entry::metadata(metadata, p), map);
    entry::write_metadata(out, at, d);
}

// All metadata, from byte a on.
fn write_metadata(
    words: &[u64],
    metadata: &[u8],
    map: PcMap,
    kept: &[u32],
    out: &mut [u8],
    a: usize,
)
    requires { (metadata_size * length words.now ≤ length metadata.now) × (length map.boundaries.now ≡ length words.now + 1) × AllMovable kept.now words.now × EndsRetained kept.now words.now metadata.now map.boundaries.now × (a + 16 * length kept.now ≤ length out.old) }
    ensures { (keep : List ℕ) → Listed keep map.entry.boundaries.now kept.now (length words.now) → out.new ≡ put_mid a (16 * length kept.now) out.old (metadata_bytes_all (retain_from keep 0 (cells_by words.now metadata.now))) }
{
    for (q, place) in kept.iter().enumerate() {
        let at = a + size::METADATA * q;
        write_entry(words, metadata, map, *place as usize, out, at);
    }
}

// The kept places, from byte a on.
fn write_places(kept: &[u32], out: &mut [u8], a: usize)
    requires { a + 4 * length kept.now ≤ length out.old }
    ensures { (keep words metadata : List ℕ) → kept.now ≡ kept_list keep → length keep ≡ length words → out.new ≡ put_mid a (4 * length kept.now) out.old (place_bytes (retain_from keep 0 (cells_by words metadata))) }
{
    for (q, place) in kept.iter().enumerate() {
        le::write_u32(out, a + size::PLACE * q, *place);
    }
}

// Writes the result, without lines: its header, then code, metadata and old places.
pub fn write_retained(words: &[u64], metadata: &[u8], bounds: &[u32], kept: &[u32], out: &mut [u8])
    requires { Writable words.now metadata.now bounds.now kept.now (length out.old) }
    ensures { (keep : List ℕ) → Listed keep bounds.now kept.now (length words.now) → out.new ≡ put_mid 0 (result_size (length kept.now) 0) out.old (result_bytes (retain_from keep 0 (cells_by words.now metadata.now)) []) }
{
    let map = PcMap { boundaries: bounds };
    let k = kept.len();
    result::write_header(out, k);
    write_code(words, map, kept, out);
    write_metadata(words, metadata, map, kept, out, result::metadata_at(k));
    write_places(kept, out, result::places_at(k));
}
