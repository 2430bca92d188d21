// A result of one pass or of the cleaning laid out as a unit again: its code, metadata and lines with the given unit's
// other sections and numbers.
#![tactic(auto)]

ghost use Rattle.std.specs.Prelude.{◌≡◌, ◌+◌, ◌%◌, ◌^◌, ◌≤◌, ◌<◌, length, get_or};
ghost use borrow.Rule.Slice.PartMut.{mid_of, put_mid};
ghost use Rattle.words.specs.Le.{u32_at};
ghost use Rattle.unit.specs.Size.{header_size, result_header_size};
ghost use Rattle.again.specs.Again.{counts_with, offsets_of, header_with, header_words, header_bytes};
ghost use Rattle.again.specs.LaidOut.{has_offsets, is_result_of, laid_unit, laid_answer, output_laid};
ghost use Rattle.again.specs.laws.Found.{lines_at, Writable};

use unit::refusal::{Reason, Refusal};
use unit::{Counts, Header, Offsets, field, result, section, size};
use words::{bytes, le};

// A result's number at a byte.
fn word(res: &[u8], at: usize) -> usize
    requires inside { at + 4 ≤ length res.now }
    ensures value { result ≡ u32_at res.now at }
    ensures fits { result < 2 ^ 32 }
{
    le::read_u32(res, at) as usize
}

// Does the header say where the sections of a result of n instructions start?
fn has_offsets(res: &[u8], n: usize) -> bool
    requires header { result_header_size ≤ length res.now }
    requires count { n < 2 ^ 32 }
    ensures answer { result ≡ has_offsets res.now n }
{
    let metadata = size::RESULT_HEADER + size::INSTRUCTION * n;
    let places = metadata + size::METADATA * n;
    let lines = places + size::PLACE * n;
    (word(res, 4) == size::RESULT_HEADER)
        & (word(res, 8) == metadata)
        & (word(res, 12) == places)
        & (word(res, 20) == lines)
}

// Does the buffer begin with a result of a unit with these counts?
fn is_result_of(c: Counts, res: &[u8]) -> bool
    ensures answer { result ≡ is_result_of c res.now }
{
    if res.len() < size::RESULT_HEADER {
        return false;
    }
    let n = word(res, 0);
    let l = word(res, result::LINES);
    has_offsets(res, n)
        & (size::output_room(n, l) <= res.len())
        & (n <= c.instructions)
        & (n <= c.metadata)
        & (l <= c.lines)
}

// The counts of n instructions, each with its metadata, and of l lines; all else is counted as before.
fn counts_with(c: Counts, n: usize, l: usize) -> Counts
    ensures counts { result ≡ counts_with c n l }
{
    Counts {
        instructions: n,
        metadata: n,
        lines: l,
        ..c
    }
}

// Each section starts where the one before it ends.
fn offsets_of(c: Counts) -> Offsets
    requires fits { lines_at c < 2 ^ 63 }
    ensures offsets { result ≡ offsets_of c }
{
    let metadata = size::HEADER + size::INSTRUCTION * c.instructions;
    let types = metadata + size::METADATA * c.metadata;
    let constants = types + c.types;
    let functions = constants + size::CONSTANT * c.constants;
    let externs = functions + size::FUNCTION * c.functions;
    let cases = externs + size::EXTERN * c.externs;
    let lines = cases + size::CASE * c.cases;
    Offsets {
        code: size::HEADER,
        metadata,
        types,
        constants,
        functions,
        externs,
        cases,
        lines,
    }
}

// The header of the unit again.
fn header_with(c: Counts, n: usize, l: usize) -> Header
    requires fits { lines_at (counts_with c n l) < 2 ^ 63 }
    ensures header { result ≡ header_with c n l }
{
    let counts = counts_with(c, n, l);
    let offsets = offsets_of(counts);
    Header { counts, offsets }
}

// The q-th word of a header, its low 32 bits.
fn header_word(h: Header, q: usize) -> u32
    requires below { q < 18 }
    ensures word { result ≡ get_or (header_words h) q 0 % 2 ^ 32 }
{
    let c = h.counts;
    let o = h.offsets;
    let words = [
        c.instructions,
        c.metadata,
        c.locals,
        c.types,
        c.defer,
        c.constants,
        c.functions,
        c.externs,
        c.cases,
        o.code,
        o.metadata,
        o.types,
        o.constants,
        o.functions,
        o.externs,
        o.cases,
        c.lines,
        o.lines,
    ];
    (words[q] % 4294967296) as u32
}

// A header at the front of a buffer.
fn write_header(out: &mut [u8], h: Header)
    requires room { header_size ≤ length out.old }
    ensures out { out.new ≡ put_mid 0 header_size out.old (header_bytes h) }
{
    for q in 0..18 {
        le::write_u32(out, 4 * q, header_word(h, q));
    }
}

// From byte `at` of a buffer on, the n bytes of another from byte `start` on.
fn copy(to: &mut [u8], at: usize, from: &[u8], start: usize, n: usize)
    requires inside { start + n ≤ length from.now }
    requires room { at + n ≤ length to.old }
    ensures to { to.new ≡ put_mid at n to.old (mid_of start n from.now) }
{
    bytes::copy(&from[start..start + n], &mut to[at..at + n]);
}

// The unit again, with header h, at the front of a buffer. What stands between metadata and lines is the given unit's.
fn write(unit: &[u8], res: &[u8], out: &mut [u8], h: Header)
    requires writable { Writable unit.now res.now (length out.old) h }
    ensures out { out.new ≡ put_mid 0 (length (laid_unit unit.now res.now))
        out.old (laid_unit unit.now res.now) }
{
    let c = h.counts;
    let o = h.offsets;
    let code = size::INSTRUCTION * c.instructions;
    let metadata = size::METADATA * c.metadata;
    let others = o.lines - o.types;
    let lines = size::LINE * c.lines;
    let metadata_at = word(res, 8);
    let lines_at = word(res, 20);
    let types_at = section::word(unit, field::TYPES_AT);
    write_header(out, h);
    copy(out, o.code, res, size::RESULT_HEADER, code);
    copy(out, o.metadata, res, metadata_at, metadata);
    copy(out, o.types, unit, types_at, others);
    copy(out, o.lines, res, lines_at, lines);
}

// The unit again of a unit and a result of it, at the front of a buffer whose rest stays: its length in bytes, or none where there
// is no result of the unit.
pub fn lay_out(unit: &[u8], res: &[u8], out: &mut [u8]) -> Result<Option<usize>, Refusal>
    ensures answer { result ≡ laid_answer unit.now res.now (length out.old) }
    ensures out { out.new ≡ output_laid unit.now res.now out.old }
{
    let given = parse::check(unit)?;
    let c = given.counts;
    if !is_result_of(c, res) {
        return Ok(None);
    }
    let l = word(res, result::LINES);
    let h = header_with(c, word(res, 0), l);
    let o = h.offsets;
    let end = o.lines + size::LINE * l;
    if out.len() < end {
        return Err(Reason::ShortBuffer.at(0));
    }
    write(unit, res, out, h);
    Ok(Some(end))
}
