// Document 02, L3: "Line numbers travel with the code". The lines of a result, by the given lines and its old places.
#![tactic(auto)]

ghost use Rattle.std.specs.Prelude.{◌≡◌, cond, ◌&&◌, List, ◌/◌, ◌-◌, ◌^◌, ◌≤◌, ◌<◌, eqb, ltb, length};
ghost use borrow.Rule.Slice.PartMut.{put_mid};
ghost use Rattle.unit.specs.Entry.{lines_in};
ghost use Rattle.unit.specs.Result.{Retained, result_bytes};
ghost use Rattle.unit.specs.Size.{line_size, max_instructions, place_size, result_size};
ghost use Rattle.lines.specs.Lines.{below, moved_lines, places_of};
ghost use Rattle.lines.specs.laws.Below.{Rising, places_in};
ghost use Rattle.lines.specs.laws.Moving.{RisingLines, SweptAll, Unlined};

use unit::{Line, entry, result, size};
use words::le;

// The boundary of place p: the number of old places below it, of which there are q at least.
fn boundary(places: &[u8], q: usize, p: u32) -> usize
    requires { q ≤ length places.now / place_size }
    ensures { (q ≤ result) × (result ≤ length places.now / place_size) × (Rising (places_in places.now) → q ≤ below (places_in places.now) p → result ≡ below (places_in places.now) p) }
{
    let k = places.len() / size::PLACE;
    for b in q..k {
        if le::read_u32(places, size::PLACE * b) >= p {
            return b;
        }
    }
    k
}

// Where the next of `count` entries goes, that lands on b: "the later supersedes the earlier", which landed on q.
fn position(count: usize, q: usize, b: usize) -> usize
    ensures { (result ≤ count) × (result ≡ cond (ltb 0 count && eqb b q) (count - 1) count) }
{
    if count == 0 {
        return 0;
    }
    if b == q { count - 1 } else { count }
}

// Writes the entries behind a result of k instructions. The result is their number.
fn write_entries(lines: &[u8], out: &mut [u8], k: usize) -> usize
    requires { (k ≤ max_instructions) × (result_size k (length lines.now / line_size) ≤ length out.old) }
    ensures { (result ≤ length lines.now / line_size) × SweptAll k lines.now out.old out.new result }
{
    let l = lines.len() / size::LINE;
    let old = result::places_at(k);
    let at = result::lines_at(k);
    let mut q: usize = 0;
    let mut count: usize = 0;
    for j in 0..l {
        let e = entry::line(lines, j);
        let b = boundary(&out[old..at], q, e.place);
        if b == k {
            return count;
        }
        let i = position(count, q, b);
        entry::write_line(
            out,
            at + size::LINE * i,
            Line {
                place: b as u32,
                line: e.line,
            },
        );
        q = b;
        count = i + 1;
    }
    count
}

// Adds lines to a result of k instructions that has none.
pub fn write_lines(lines: &[u8], out: &mut [u8], k: usize)
    requires { (k ≤ max_instructions) × (result_size k (length lines.now / line_size) ≤ length out.old) × (length lines.now / line_size < 2 ^ 32) }
    ensures { (kept : List Retained) → Unlined kept k out.old → RisingLines (lines_in lines.now) → out.new ≡ put_mid 0 (result_size k (length (moved_lines (places_of kept) (lines_in lines.now)))) out.old (result_bytes kept (moved_lines (places_of kept) (lines_in lines.now))) }
{
    let count = write_entries(lines, out, k);
    le::write_u32(out, result::LINES, count as u32);
}
