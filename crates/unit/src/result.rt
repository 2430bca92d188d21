// The result: its header, and where its sections start.
ghost use Rattle.std.specs.Prelude.{◌≡◌, ◌≤◌, length};
ghost use borrow.Rule.Slice.PartMut.{put_mid};
ghost use Rattle.unit.specs.Size.{max_instructions, result_header_size};
ghost use Rattle.unit.specs.Result.{result_header, result_metadata_at, result_places_at, result_lines_at};

use crate::size;
use words::le;

// The code stands behind the header.
const CODE_AT: u32 = size::RESULT_HEADER as u32;

// The byte of the header at which the number of lines stands.
pub const LINES: usize = 16;

pub fn metadata_at(k: usize) -> usize
    requires { k ≤ max_instructions }
    ensures { result ≡ result_metadata_at k }
{
    size::RESULT_HEADER + size::INSTRUCTION * k
}

pub fn places_at(k: usize) -> usize
    requires { k ≤ max_instructions }
    ensures { result ≡ result_places_at k }
{
    metadata_at(k) + size::METADATA * k
}

pub fn lines_at(k: usize) -> usize
    requires { k ≤ max_instructions }
    ensures { result ≡ result_lines_at k }
{
    places_at(k) + size::PLACE * k
}

// The header of a result of k instructions, without lines.
pub fn write_header(out: &mut [u8], k: usize)
    requires { (result_header_size ≤ length out.old) × (k ≤ max_instructions) }
    ensures { out.new ≡ put_mid 0 result_header_size out.old (result_header k 0) }
{
    le::write_u32(out, 0, k as u32);
    le::write_u32(out, 4, CODE_AT);
    le::write_u32(out, 8, metadata_at(k) as u32);
    le::write_u32(out, 12, places_at(k) as u32);
    le::write_u32(out, LINES, 0);
    le::write_u32(out, 20, lines_at(k) as u32);
}
