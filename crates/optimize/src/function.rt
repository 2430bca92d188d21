// One pass over a function that was admitted: refusals 5 to 10, unchanged, or rewritten. The n instructions stand in
// `code` and `metadata`, which may be those of a result; the other sections are the unit's. In the 64-bit work, behind
// what numbering and liveness take, stands the list of the control places: `count` of them from `at` on.
ghost use Rattle.std.specs.Prelude.{Ok, ◌≡◌, true, List, [], ℕ, ◌+◌, ◌*◌, ◌≤◌, ◌<◌, length, drop};
ghost use borrow.Rule.Slice.PartMut.{mid_of};
ghost use Rattle.unit.specs.Layout.{is_unit};
ghost use Rattle.unit.specs.Result.{Retained};
ghost use Rattle.unit.specs.Size.{instruction_size, metadata_size, result_size, work32_room, work64_room, max_instructions};
ghost use Rattle.effects.specs.Check.{operand_check};
ghost use Rattle.effects.specs.laws.Cells.{cells_by};
ghost use Rattle.flow.specs.laws.Control.{Controls};
ghost use Rattle.flow.specs.laws.Listing.{check_of};
ghost use Rattle.answer.specs.Pass.{rewritten, output_after};
ghost use Rattle.answer.specs.Answer.{sections_of};
ghost use Rattle.optimize.specs.PassAnswer.{answer_of, Answers};
ghost use Rattle.optimize.specs.laws.Given.{Given, WorkRoom, Workable, cells_in, outcome_in};
ghost use Rattle.optimize.specs.laws.Steps.{controls_at, Loaded, ListedControls, Numberable, Renumbered, Reached};
ghost use Rattle.optimize.specs.laws.Decided.{Finished, Relocatable, Holds, concluded, retained_in};

use crate::{Answer, code};
use effects::Tables;
use flow::{block, branch, control, hint, reach};
use numbering::walk;
use pc_map::{boundary, relocation, retained};
use removal::retain;
use unit::refusal::Refusal;
use unit::{region, section, size};

// The code goes into the work, and the control places are listed. Refusals 5, 6 and 7.
fn load(
    unit: &[u8],
    code: &[u8],
    metadata: &[u8],
    work64: &mut [u64],
    n: usize,
    at: usize,
) -> Result<usize, Refusal>
    requires laid { is_unit unit.now ≡ true }
    requires given { Given n code.now metadata.now (sections_of unit.now) }
    requires list { at ≡ controls_at n (sections_of unit.now).locals }
    requires room { work64_room n (sections_of unit.now).locals ≤ length work64.old }
    ensures answer { check_of result ≡ operand_check (sections_of unit.now).locals
        (sections_of unit.now).tables (cells_in n code.now metadata.now) }
    ensures loaded { (count : ℕ) → result ≡ Ok count
        → Loaded n (sections_of unit.now).locals at count code.now work64.new }
{
    code::load(code, &mut work64[0..n]);
    control::check_operands(
        work64,
        n,
        at,
        metadata,
        section::types(unit).len(),
        Tables::of_unit(unit),
    )
}

// Marks the leaders and numbers the code.
fn number(unit: &[u8], work32: &mut [u32], work64: &mut [u64], n: usize, at: usize, count: usize)
    requires laid { is_unit unit.now ≡ true }
    requires typed { length (sections_of unit.now).types ≡ (sections_of unit.now).locals }
    requires numberable { Numberable n (sections_of unit.now).locals (length work32.old) work64.old }
    requires listed { ListedControls n (sections_of unit.now).locals at count work64.old }
    ensures numbered { (metadata : List ℕ) → Renumbered (sections_of unit.now)
        (cells_by (mid_of 0 n work64.old) metadata) n work32.new work64.new }
    ensures behind { drop at work64.new ≡ drop at work64.old }
{
    block::mark_leaders(&work64[0..n], &work64[at..at + count], &mut work32[0..n]);
    walk::number_code(
        &mut work64[0..at],
        &work32[0..n],
        section::types(unit),
        section::constants(unit),
    );
}

// Marks the reached places. Refusal 9.
fn reach(
    metadata: &[u8],
    work32: &mut [u32],
    words: &[u64],
    list: &[u64],
    n: usize,
) -> Result<(), Refusal>
    requires { (1 < n) × (length words.now ≡ n) × (n ≤ max_instructions)
        × (length metadata.now ≡ metadata_size * n) × (work32_room n ≤ length work32.old)
        × Controls words.now list.now (length words.now) }
    ensures reached { Reached n metadata.now words.now
        work32.old work32.new result }
{
    let at = region::keep_at(n);
    reach::mark_reached(words, metadata, &mut work32[at..]);
    hint::check_loops(words, list, metadata, &work32[at..at + n])
}

// "unchanged: same code, all kept", refusal 10, or rewritten, of the retained places in the work.
fn conclude(
    code: &[u8],
    metadata: &[u8],
    work32: &[u32],
    work64: &[u64],
    n: usize,
    at: usize,
    count: usize,
) -> Result<Answer, Refusal>
    requires finished { Finished n metadata.now work32.now work64.now }
    requires code { instruction_size * n ≤ length code.now }
    requires within { at + count ≤ length work64.now }
    requires listed { Controls (mid_of 0 n work64.now) (mid_of at count work64.now) n }
    ensures answer { result ≡ answer_of (concluded n code.now metadata.now
        work32.now work64.now) }
{
    let keep = region::keep_at(n);
    let end = keep + n;
    let retained = work32[end + n];
    if code::is_unchanged(code, &work64[0..n], retained as usize) {
        return Ok(Answer::Unchanged);
    }
    relocation::check_relocation(
        &work64[0..n],
        &work64[at..at + count],
        metadata,
        &work32[keep..end],
    )?;
    Ok(Answer::Rewritten(retained))
}

// What one pass makes of the function. Where it is rewritten, the work holds what is retained; else it is free.
pub fn decide(
    unit: &[u8],
    code: &[u8],
    metadata: &[u8],
    work32: &mut [u32],
    work64: &mut [u64],
    n: usize,
) -> Result<Answer, Refusal>
    requires given { Workable n unit.now code.now metadata.now (length work32.old) (length work64.old) }
    ensures answer { result ≡ answer_of (outcome_in n unit.now code.now
        metadata.now) }
    ensures holds { Holds (outcome_in n unit.now code.now metadata.now) n
        metadata.now work32.new work64.new }
{
    let at = size::work64_room(n, section::types(unit).len()) - n;
    let count = load(unit, code, metadata, work64, n, at)?;
    branch::check_branches(&work64[0..n], &work64[at..at + count])?;
    number(unit, work32, work64, n, at, count);
    reach(metadata, work32, &work64[0..n], &work64[at..at + count], n)?;
    retain::retain(unit, metadata, work32, work64, n, at, count);
    conclude(code, metadata, &work32[..], &work64[..], n, at, count)
}

// The result, without lines, of what the work holds.
fn write(metadata: &[u8], out: &mut [u8], work32: &mut [u32], work64: &[u64], n: usize)
    requires held { Relocatable n metadata.now work32.old work64.now }
    requires room { result_size n 0 ≤ length out.old }
    ensures written { (kept : List Retained)
        → retained_in n metadata.now work32.old work64.now ≡ kept
        → out.new ≡ output_after (rewritten kept) [] out.old }
{
    let keep = region::keep_at(n);
    boundary::list_kept(&mut work32[keep..], n, region::list_in(n));
    let end = keep + n;
    let list = region::list_at(n);
    let retained = work32[end + n] as usize;
    retained::write_retained(
        &work64[0..n],
        metadata,
        &work32[end..end + n + 1],
        &work32[list..list + retained],
        out,
    );
}

// The pass: it is decided, and written where it is rewritten. What the work holds then is free.
pub fn optimize(
    unit: &[u8],
    code: &[u8],
    metadata: &[u8],
    out: &mut [u8],
    work32: &mut [u32],
    work64: &mut [u64],
    n: usize,
) -> Result<Answer, Refusal>
    requires given { Workable n unit.now code.now metadata.now (length work32.old) (length work64.old) }
    requires room { result_size n 0 ≤ length out.old }
    ensures answers { Answers (outcome_in n unit.now code.now metadata.now) result
        out.old out.new }
{
    let answer = decide(unit, code, metadata, work32, work64, n)?;
    if let Answer::Rewritten(_) = answer {
        write(metadata, out, work32, &work64[..], n);
    }
    Ok(answer)
}
