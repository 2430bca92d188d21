// The cleaning: up to three passes. Each reads the code of the pass before from one spare buffer and writes to the other.
#![tactic(auto)]

ghost use Rattle.std.specs.Prelude.{◌≡◌, ◌&&◌, [], ◌≤◌, length};
ghost use borrow.Rule.Slice.PartMut.{mid_of};
ghost use Rattle.unit.specs.Layout.{header_of};
ghost use Rattle.unit.specs.Result.{result_bytes};
ghost use Rattle.unit.specs.Size.{result_size, max_instructions};
ghost use Rattle.answer.specs.Pass.{optimized};
ghost use Rattle.answer.specs.Answer.{lent_of, cells_of, sections_of, room_for};
ghost use Rattle.answer.specs.Clean.{clean_from, cleaned_first, spare_for, clean_answer};
ghost use Rattle.run.specs.Given.{Worked};
ghost use Rattle.run.specs.Contract.{CleanContract, buffers, spares};
ghost use Rattle.run.specs.laws.Reading.{retained_in};
ghost use Rattle.clean.specs.laws.Ready.{Ready};
ghost use Rattle.clean.specs.laws.Cleaning.{finished};
ghost use Rattle.clean.specs.CleanAnswer.{cleaned_of, AnswersCleaned};

mod buffer;
mod later;

use answer::Admission;
use optimize::{Answer, pass};
use unit::refusal::Refusal;
use unit::size;
use words::bytes;

// What the cleaning answers, and the number of the last pass run.
#[derive(Clone, Copy)]
pub struct Cleaned {
    pub answer: Result<Answer, Refusal>,
    pub passes: u32,
}

// "it gives the last rewritten code": the k instructions in a spare buffer, without lines.
fn give(from: &[u8], out: &mut [u8], k: usize, passes: u32) -> Cleaned
    requires { (k ≤ max_instructions) × (result_size k 0 ≤ length from.now) × (result_size k 0 ≤ length out.old) × (mid_of 0 (result_size k 0) from.now ≡ result_bytes (retained_in k from.now) []) }
    ensures { AnswersCleaned (finished (retained_in k from.now) passes) result out.old out.new }
{
    let room = size::output_room(k, 0);
    bytes::copy(&from[..room], &mut out[..room]);
    Cleaned {
        answer: Ok(Answer::Rewritten(k as u32)),
        passes,
    }
}

// The third pass, where the second made k instructions.
fn third_pass(
    unit: &[u8],
    out: &mut [u8],
    work32: &mut [u32],
    work64: &mut [u64],
    from: &[u8],
    to: &mut [u8],
    k: usize,
) -> Cleaned
    requires { Ready unit.now from.now k (length to.old) (length work32.old) (length work64.old) × (result_size k 0 ≤ length out.old) }
    ensures { AnswersCleaned (clean_from (sections_of unit.now) 1 2 (retained_in k from.now)) result out.old out.new }
{
    match later::later(unit, from, to, work32, work64, k) {
        Ok(Answer::Unchanged) => give(from, out, k, 3),
        Err(r) => Cleaned {
            answer: Err(r),
            passes: 3,
        },
        Ok(Answer::Rewritten(j)) => give(&to[..], out, j as usize, 3),
    }
}

// The second pass, where the first made k instructions.
fn second_pass(
    unit: &[u8],
    out: &mut [u8],
    work32: &mut [u32],
    work64: &mut [u64],
    from: &mut [u8],
    to: &mut [u8],
    k: usize,
) -> Cleaned
    requires { Ready unit.now from.old k (length to.old) (length work32.old) (length work64.old) × (result_size k 0 ≤ length out.old) }
    ensures { AnswersCleaned (clean_from (sections_of unit.now) 2 1 (retained_in k from.old)) result out.old out.new }
{
    match later::later(unit, &from[..], to, work32, work64, k) {
        Ok(Answer::Unchanged) => give(&from[..], out, k, 2),
        Err(r) => Cleaned {
            answer: Err(r),
            passes: 2,
        },
        Ok(Answer::Rewritten(j)) => {
            third_pass(unit, out, work32, work64, &to[..], from, j as usize)
        }
    }
}

// The first pass, on a unit that was admitted.
fn first_pass(
    unit: &[u8],
    out: &mut [u8],
    work32: &mut [u32],
    work64: &mut [u64],
    first: &mut [u8],
    second: &mut [u8],
) -> Cleaned
    requires admitted { Worked unit.now (room_for (header_of unit.now).counts
        (lent_of (length out.old) (length work32.old) (length work64.old))
        && spare_for (header_of unit.now).counts (length first.old) (length second.old)) }
    ensures answers { AnswersCleaned (cleaned_first (sections_of unit.now)
        (optimized (sections_of unit.now) (cells_of unit.now))) result out.old out.new }
{
    match pass::work(unit, first, work32, work64) {
        Ok(Answer::Unchanged) => Cleaned {
            answer: Ok(Answer::Unchanged),
            passes: 1,
        },
        Err(r) => Cleaned {
            answer: Err(r),
            passes: 1,
        },
        Ok(Answer::Rewritten(k)) => {
            second_pass(unit, out, work32, work64, first, second, k as usize)
        }
    }
}

// The answer, the lent memory left as it comes, and the result without lines. Each spare buffer is as long as the output.
fn answer(
    unit: &[u8],
    out: &mut [u8],
    work32: &mut [u32],
    work64: &mut [u64],
    first: &mut [u8],
    second: &mut [u8],
) -> Cleaned
    ensures answers { AnswersCleaned (clean_answer unit.now
        (lent_of (length out.old) (length work32.old) (length work64.old))
        (length first.old) (length second.old)) result out.old out.new }
{
    let shortest = out.len().min(first.len()).min(second.len());
    match admit::admit(unit, shortest, work32.len(), work64.len()) {
        Ok(Admission::Unchanged) => Cleaned {
            answer: Ok(Answer::Unchanged),
            passes: 1,
        },
        Err(r) => Cleaned {
            answer: Err(r),
            passes: 1,
        },
        Ok(Admission::Admitted) => first_pass(unit, out, work32, work64, first, second),
    }
}

// The cleaning of a unit: the answer that is defined, the output by its cases, the work and spare buffers zeroed; what is
// returned runs as what was given.
pub fn clean(
    unit: &[u8],
    out: &mut [u8],
    work32: &mut [u32],
    work64: &mut [u64],
    first: &mut [u8],
    second: &mut [u8],
) -> Cleaned
    ensures { CleanContract cleaned_of unit.now (buffers out.old work32.old work64.old) (spares first.old second.old) result (buffers out.new work32.new work64.new) (spares first.new second.new) }
{
    let r = answer(unit, out, work32, work64, first, second);
    let a = r.answer;
    pass::add_lines(unit, out, a);
    work32.fill(0);
    work64.fill(0);
    first.fill(0);
    second.fill(0);
    r
}
