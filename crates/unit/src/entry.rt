// The entries of the sections.
ghost use Rattle.std.specs.Prelude.{◌≡◌, ◌+◌, ◌*◌, ◌≤◌, ◌<◌, length};
ghost use borrow.Rule.Slice.PartMut.{put_mid};
ghost use Rattle.unit.specs.Size.{metadata_size, case_size, line_size};
ghost use Rattle.unit.specs.Entry.{metadata_at, metadata_bytes, type_at, constant_of, constant_at, function_at, extern_at, case_at, line_at, line_bytes};

use crate::{Callee, Constant, Line, Metadata, SelectCase, kind, size};
use words::le;

#[tactic(auto, unfolding(crate::specs::Entry::metadata_at))]
pub fn metadata(section: &[u8], k: usize) -> Metadata
    requires { metadata_size * k + metadata_size ≤ length section.now }
    ensures { result ≡ metadata_at section.now k }
{
    let at = size::METADATA * k;
    Metadata {
        kind: section[at],
        ok: section[at + 1],
        array: le::read_u16(section, at + 2),
        first: le::read_u32(section, at + 4),
        second: le::read_u32(section, at + 8),
        end: le::read_u32(section, at + 12),
    }
}

// The sixteen bytes of an entry at a byte of a buffer.
pub fn write_metadata(d: &mut [u8], at: usize, m: Metadata)
    requires { at + metadata_size ≤ length d.old }
    ensures { d.new ≡ put_mid at metadata_size d.old (metadata_bytes m) }
{
    let head = (m.kind as u32) + 256 * (m.ok as u32) + 65536 * (m.array as u32);
    le::write_u32(d, at, head);
    le::write_u32(d, at + 4, m.first);
    le::write_u32(d, at + 8, m.second);
    le::write_u32(d, at + 12, m.end);
}

#[tactic(auto, unfolding(crate::specs::Entry::constant_of))]
fn constant_of(kind: u8, value: u64) -> Constant
    ensures { result ≡ constant_of kind value }
{
    match kind {
        kind::NIL => Constant::Nil,
        kind::BOOL => Constant::Bool(value),
        kind::INT => Constant::Int(value),
        kind::FLOAT => Constant::Float(value),
        _ => Constant::String,
    }
}

#[tactic(auto, unfolding(crate::specs::Entry::constant_at))]
pub fn constant(section: &[u8], k: usize) -> Option<Constant>
    ensures { result ≡ constant_at section.now k }
{
    if k < section.len() / size::CONSTANT {
        let at = size::CONSTANT * k;
        Some(constant_of(section[at], le::read_u64(section, at + 8)))
    } else {
        None
    }
}

#[tactic(auto, unfolding(crate::specs::Entry::function_at))]
pub fn function(section: &[u8], k: usize) -> Option<Callee>
    ensures { result ≡ function_at section.now k }
{
    if k < section.len() / size::FUNCTION {
        let at = size::FUNCTION * k;
        Some(Callee {
            params: le::read_u16(section, at),
            returns: le::read_u16(section, at + 2),
        })
    } else {
        None
    }
}

// An extern's return slots.
#[tactic(auto, unfolding(crate::specs::Entry::extern_at))]
pub fn extern_of(section: &[u8], k: usize) -> Option<u16>
    ensures { result ≡ extern_at section.now k }
{
    if k < section.len() / size::EXTERN {
        Some(le::read_u16(section, size::EXTERN * k))
    } else {
        None
    }
}

#[tactic(auto, unfolding(crate::specs::Entry::case_at))]
pub fn select_case(section: &[u8], k: usize) -> SelectCase
    requires { case_size * k + case_size ≤ length section.now }
    ensures { result ≡ case_at section.now k }
{
    let at = size::CASE * k;
    SelectCase {
        kind: section[at],
        ok: section[at + 1],
        queue: le::read_u16(section, at + 2),
        slot: le::read_u16(section, at + 4),
        elements: le::read_u16(section, at + 6),
    }
}

#[tactic(auto, unfolding(crate::specs::Entry::line_at))]
pub fn line(section: &[u8], k: usize) -> Line
    requires { line_size * k + line_size ≤ length section.now }
    ensures { result ≡ line_at section.now k }
{
    let at = size::LINE * k;
    Line {
        place: le::read_u32(section, at),
        line: le::read_u32(section, at + 4),
    }
}

// The eight bytes of an entry at a byte of a buffer.
pub fn write_line(d: &mut [u8], at: usize, e: Line)
    requires { at + line_size ≤ length d.old }
    ensures { d.new ≡ put_mid at line_size d.old (line_bytes e) }
{
    le::write_u32(d, at, e.place);
    le::write_u32(d, at + 4, e.line);
}
