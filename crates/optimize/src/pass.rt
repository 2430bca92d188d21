// One pass on a unit: document 01's table of answers, from top to bottom.
ghost use Rattle.std.specs.Prelude.{◌≡◌, List, ℕ, length};
ghost use Rattle.unit.specs.Layout.{header_of, lines_of};
ghost use Rattle.unit.specs.Entry.{lines_in};
ghost use Rattle.answer.specs.Pass.{Outcome, optimized, output_after, lines_after};
ghost use Rattle.answer.specs.Answer.{lent_of, cells_of, sections_of, room_for, pass_answer};
ghost use Rattle.run.specs.Given.{Worked};
ghost use Rattle.run.specs.Contract.{PassContract, buffers};
ghost use Rattle.optimize.specs.laws.Lines.{Linable, Moves};
ghost use Rattle.optimize.specs.PassAnswer.{Answers, answer_of};

use crate::{Answer, function};
use answer::Admission;
use unit::refusal::Refusal;
use unit::{field, section};

// The pass on a unit that was admitted: refusals 5 to 10, unchanged, or rewritten. What the work holds then is free.
pub fn work(
    unit: &[u8],
    out: &mut [u8],
    work32: &mut [u32],
    work64: &mut [u64],
) -> Result<Answer, Refusal>
    requires admitted { Worked unit.now (room_for (header_of unit.now).counts
        (lent_of (length out.old) (length work32.old) (length work64.old))) }
    ensures answers { Answers (optimized (sections_of unit.now) (cells_of unit.now)) result
        out.old out.new }
{
    let n = section::word(unit, field::INSTRUCTIONS);
    function::optimize(
        unit,
        section::code(unit),
        section::metadata(unit),
        out,
        work32,
        work64,
        n,
    )
}

// The answer, the work buffers left as they come, and the result without lines.
fn answer(
    unit: &[u8],
    out: &mut [u8],
    work32: &mut [u32],
    work64: &mut [u64],
) -> Result<Answer, Refusal>
    ensures answers { Answers (pass_answer unit.now
        (lent_of (length out.old) (length work32.old) (length work64.old))) result
        out.old out.new }
{
    match admit::admit(unit, out.len(), work32.len(), work64.len())? {
        Admission::Unchanged => Ok(Answer::Unchanged),
        Admission::Admitted => work(unit, out, work32, work64),
    }
}

// Document 02, L3: the unit's lines, moved, behind the result of an answer.
pub fn add_lines(unit: &[u8], out: &mut [u8], r: Result<Answer, Refusal>)
    requires room { Linable unit.now r (length out.old) }
    ensures lined { (o : Outcome) (before : List ℕ) → Answers o r before out.old
        → Moves unit.now o
        → out.new ≡ output_after o (lines_after (lines_in (lines_of unit.now)) o) before }
{
    match r {
        Ok(Answer::Rewritten(k)) => lines::write_lines(section::lines(unit), out, k as usize),
        Ok(Answer::Unchanged) => {}
        Err(_) => {}
    }
}

// One pass on a unit: the answer that is defined, the output by its cases, the work buffers zeroed; what is returned
// runs as what was given.
pub fn pass(
    unit: &[u8],
    out: &mut [u8],
    work32: &mut [u32],
    work64: &mut [u64],
) -> Result<Answer, Refusal>
    ensures contract { PassContract answer_of unit.now
        (buffers out.old work32.old work64.old) result
        (buffers out.new work32.new work64.new) }
{
    let r = answer(unit, out, work32, work64);
    add_lines(unit, out, r);
    work32.fill(0);
    work64.fill(0);
    r
}
