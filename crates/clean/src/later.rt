// A later pass: on the result in one spare buffer, into the other.
ghost use Rattle.std.specs.Prelude.{◌≡◌, ◌*◌, ◌<◌, length};
ghost use borrow.Rule.Slice.PartMut.{put_mid};
ghost use Rattle.unit.specs.Result.{result_places_at};
ghost use Rattle.answer.specs.Answer.{sections_of};
ghost use Rattle.answer.specs.Clean.{cells_after};
ghost use Rattle.answer.specs.Pass.{optimized};
ghost use Rattle.optimize.specs.PassAnswer.{Answers};
ghost use Rattle.unit.specs.Size.{place_size};
ghost use Rattle.run.specs.laws.Reading.{places_in, retained_in};
ghost use Rattle.clean.specs.laws.Placing.{composed};
ghost use Rattle.clean.specs.laws.Ready.{Ready, later_outcome};
ghost use Rattle.clean.specs.laws.Later.{Placeable};

use crate::buffer;
use optimize::{Answer, function};
use unit::refusal::Refusal;
use unit::{result, size};

// The pass on the code and metadata of a result, and the unit's other sections.
fn work(
    unit: &[u8],
    from: &[u8],
    to: &mut [u8],
    work32: &mut [u32],
    work64: &mut [u64],
    k: usize,
) -> Result<Answer, Refusal>
    requires { Ready unit.now from.now k (length to.old) (length work32.old) (length work64.old) × (1 < k) }
    ensures { Answers (optimized (sections_of unit.now) (cells_after (retained_in k from.now))) result to.old to.new }
{
    let metadata = result::metadata_at(k);
    let places = result::places_at(k);
    function::optimize(
        unit,
        &from[size::RESULT_HEADER..metadata],
        &from[metadata..places],
        to,
        work32,
        work64,
        k,
    )
}

// The old places of j instructions that came of k.
fn place(from: &[u8], to: &mut [u8], k: usize, j: usize)
    requires { Placeable from.now to.old k j }
    ensures { to.new ≡ put_mid (result_places_at j) (place_size * j) to.old (composed (places_in k from.now) (places_in j to.old) j) }
{
    let old = result::places_at(k);
    let new = result::places_at(j);
    buffer::compose(
        &from[old..old + size::PLACE * k],
        &mut to[new..new + size::PLACE * j],
        j,
    );
}

// "n under 2" is unchanged; what the pass rewrote has old places in the given unit. What the work buffers hold then is free.
pub fn later(
    unit: &[u8],
    from: &[u8],
    to: &mut [u8],
    work32: &mut [u32],
    work64: &mut [u64],
    k: usize,
) -> Result<Answer, Refusal>
    requires { Ready unit.now from.now k (length to.old) (length work32.old) (length work64.old) }
    ensures { Answers (later_outcome (sections_of unit.now) (retained_in k from.now)) result to.old to.new }
{
    if k < 2 {
        return Ok(Answer::Unchanged);
    }
    // By a match, and not by `?`, which hides what becomes of a refusal: the edit refusal_gives_the_pass_before
    // turns it.
    match work(unit, from, to, work32, work64, k) {
        Ok(Answer::Unchanged) => Ok(Answer::Unchanged),
        Err(r) => Err(r),
        Ok(Answer::Rewritten(j)) => {
            place(from, to, k, j as usize);
            Ok(Answer::Rewritten(j))
        }
    }
}
