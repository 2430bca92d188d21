// The rows of document 01's table before any work: is a unit worked on, left unchanged, or refused? Who works on units
// in another way has the rows one by one: `parse::check`, `is_skipped`, `check_counts`, and `admit_counts` with a test
// of the room of its own.
#![tactic(auto)]

ghost use Rattle.std.specs.Prelude.{◌≡◌, ◌^◌, ◌≤◌, ◌<◌};
ghost use Rattle.unit.specs.Layout.{header_of};
ghost use Rattle.unit.specs.Size.{max_local_slots};
ghost use Rattle.answer.specs.Answer.{lent_of, is_skipped, room_for, count_check, after_layout, admission};

use answer::Admission;
use unit::refusal::{Reason, Refusal};
use unit::{Counts, size};

// "n under 2, above 65,536, or defer"
pub fn is_skipped(c: Counts) -> bool
    ensures answer { result ≡ is_skipped c }
{
    if c.instructions < 2 {
        return true;
    }
    if c.instructions > size::MAX_INSTRUCTIONS {
        return true;
    }
    c.defer == 1
}

// Is each lent buffer as long as stated?
pub fn has_room(c: Counts, out: usize, work32: usize, work64: usize) -> bool
    requires instructions { c.instructions < 2 ^ 32 }
    requires locals { c.locals ≤ max_local_slots }
    requires lines { c.lines < 2 ^ 32 }
    ensures answer { result ≡ room_for c (lent_of out work32 work64) }
{
    let n = c.instructions;
    (size::output_room(n, c.lines) <= out)
        & (size::work32_room(n) <= work32)
        & (size::work64_room(n, c.locals) <= work64)
}

// "refused 3, place 0: m is not n", "refused 4, place 0: number of types is not s"
pub fn check_counts(c: Counts) -> Result<(), Refusal>
    ensures answer { result ≡ count_check c }
{
    if c.metadata != c.instructions {
        return Err(Reason::MetadataCount.at(0));
    }
    if c.types != c.locals {
        return Err(Reason::TypeCount.at(0));
    }
    Ok(())
}

// The rows of the counts: unchanged, and refusals 2, 3 and 4.
pub fn admit_counts(c: Counts, room: bool) -> Result<Admission, Refusal>
    ensures answer { result ≡ after_layout room c }
{
    if is_skipped(c) {
        return Ok(Admission::Unchanged);
    }
    if !room {
        return Err(Reason::ShortBuffer.at(0));
    }
    check_counts(c)?;
    Ok(Admission::Admitted)
}

// All rows: those of the bytes, 1, 11 and 13, then those of the counts.
pub fn admit(unit: &[u8], out: usize, work32: usize, work64: usize) -> Result<Admission, Refusal>
    ensures answer { result ≡ admission (room_for (header_of unit.now).counts (lent_of out work32 work64))
        unit.now }
{
    let h = parse::check(unit)?;
    let c = h.counts;
    admit_counts(c, has_room(c, out, work32, work64))
}
