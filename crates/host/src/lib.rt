// The entries for a host program in C or Rust: include/lampruda.h declares them. They hold no state: threads may call them at once,
// each with buffers of its own.
#![tactic(auto)]

ghost use Rattle.std.specs.Prelude.{Ok, ◌≡◌, ◌≤◌, length};
ghost use Rattle.short.specs.Short.{made_of, buffer_after};
ghost use Rattle.run.specs.Contract.{PassContract, CleanContract, buffers, spares};
ghost use Rattle.host.specs.Numbers.{numbers_of, cleaned_numbers_of, numbers_of_outcome, numbers_of_cleaning};
ghost use Rattle.host.specs.OperandNumbers.{OperandContract, operand_numbers_of};
ghost use Rattle.again.specs.LaidOut.{laid_answer, output_laid};
ghost use Rattle.desk.specs.Answer.{desk_answer, step_answer};
ghost use Rattle.desk.specs.Charge.{charge_answer, charge_cents, stop_of, cents_of, most_cents};
ghost use Rattle.host.specs.DeskNumbers.{stop_numbers_of, next_numbers_of, charged_numbers_of, laid_numbers_of};
ghost use Rattle.host.specs.ShortNumbers.{made_numbers_of, found_numbers_of, FoundContract};

use clean::{Cleaned, clean};
use desk::{Charged, Next, Stop};
use operand::{NotCovered, smallest};
use optimize::{Answer, pass};
use unit::refusal::Refusal;

// Each struct here is as C reads it: its kinds are numbers.

// An answer in numbers: kind 0 unchanged; 1 refused, with number and place; 2 rewritten, with the number of instructions.
#[repr(C)]
#[derive(Clone, Copy)]
pub struct Numbers {
    pub kind: u32,
    pub number: u32,
    pub place: u32,
}

// The same, and the number of the last pass run.
#[repr(C)]
#[derive(Clone, Copy)]
pub struct CleanedNumbers {
    pub kind: u32,
    pub number: u32,
    pub place: u32,
    pub passes: u32,
}

impl From<Result<Answer, Refusal>> for Numbers {
    ghost from_gives = { λ a n. n ≡ numbers_of a };

    #[tactic(auto, unfolding(crate::specs::Numbers::numbers_of))]
    fn from(a: Result<Answer, Refusal>) -> Self {
        match a {
            Ok(Answer::Unchanged) => Numbers {
                kind: 0,
                number: 0,
                place: 0,
            },
            Err(r) => Numbers {
                kind: 1,
                number: r.number,
                place: r.place,
            },
            Ok(Answer::Rewritten(n)) => Numbers {
                kind: 2,
                number: n,
                place: 0,
            },
        }
    }
}

impl From<Cleaned> for CleanedNumbers {
    ghost from_gives = { λ c n. n ≡ cleaned_numbers_of c };

    #[tactic(auto, unfolding(crate::specs::Numbers::cleaned_numbers_of))]
    fn from(c: Cleaned) -> Self {
        let n = Numbers::from(c.answer);
        CleanedNumbers {
            kind: n.kind,
            number: n.number,
            place: n.place,
            passes: c.passes,
        }
    }
}

// One pass.
#[unsafe(no_mangle)]
pub extern "C" fn lampruda_pass(
    unit: &[u8],
    out: &mut [u8],
    work32: &mut [u32],
    work64: &mut [u64],
) -> Numbers
    ensures { PassContract numbers_of_outcome unit.now (buffers out.old work32.old work64.old) result (buffers out.new work32.new work64.new) }
{
    Numbers::from(pass::pass(unit, out, work32, work64))
}

// Up to three passes.
#[unsafe(no_mangle)]
pub extern "C" fn lampruda_clean(
    unit: &[u8],
    out: &mut [u8],
    work32: &mut [u32],
    work64: &mut [u64],
    first: &mut [u8],
    second: &mut [u8],
) -> CleanedNumbers
    ensures { CleanContract numbers_of_cleaning unit.now (buffers out.old work32.old work64.old) (spares first.old second.old) result (buffers out.new work32.new work64.new) (spares first.new second.new) }
{
    CleanedNumbers::from(clean(unit, out, work32, work64, first, second))
}

// An operand in numbers: kind 0 the smallest right word; 1 no word does it; 2 the opcode is not covered.
#[repr(C)]
#[derive(Clone, Copy)]
pub struct OperandNumbers {
    pub kind: u32,
    pub word: u64,
}

impl From<Result<Option<u64>, NotCovered>> for OperandNumbers {
    ghost from_gives = { λ a n. n ≡ operand_numbers_of a };

    #[tactic(auto, unfolding(crate::specs::OperandNumbers::operand_numbers_of))]
    fn from(a: Result<Option<u64>, NotCovered>) -> Self {
        match a {
            Ok(Some(word)) => OperandNumbers { kind: 0, word },
            Ok(None) => OperandNumbers { kind: 1, word: 0 },
            Err(NotCovered) => OperandNumbers { kind: 2, word: 0 },
        }
    }
}

// An operand for a wanted outcome.
#[unsafe(no_mangle)]
pub extern "C" fn lampruda_operand(opcode: u8, left: u64, wanted: u64) -> OperandNumbers
    ensures { OperandContract opcode left wanted result }
{
    OperandNumbers::from(smallest(opcode, left, wanted))
}

// What is made of a number: kind 0 a unit, `number` being its length in bytes; 1 refused, with number and place; 2 none.
#[repr(C)]
#[derive(Clone, Copy)]
pub struct MadeNumbers {
    pub kind: u32,
    pub number: u32,
    pub place: u32,
}

impl From<Result<Option<u32>, Refusal>> for MadeNumbers {
    ghost from_gives = { λ m n. n ≡ made_numbers_of m };

    #[tactic(auto, unfolding(crate::specs::ShortNumbers::made_numbers_of))]
    fn from(m: Result<Option<u32>, Refusal>) -> Self {
        match m {
            Ok(Some(size)) => MadeNumbers {
                kind: 0,
                number: size,
                place: 0,
            },
            Err(Refusal { number, place }) => MadeNumbers {
                kind: 1,
                number,
                place,
            },
            Ok(None) => MadeNumbers {
                kind: 2,
                number: 0,
                place: 0,
            },
        }
    }
}

// The unit of a short function's number.
#[unsafe(no_mangle)]
pub extern "C" fn lampruda_short_unit(number: u32, out: &mut [u8]) -> MadeNumbers
    ensures { (result ≡ made_numbers_of (made_of number (length out.old))) × (out.new ≡ buffer_after number out.old) }
{
    MadeNumbers::from(short::make_unit(number, out))
}

// What number a unit has: kind 0 this one; 1 none.
#[repr(C)]
#[derive(Clone, Copy)]
pub struct FoundNumbers {
    pub kind: u32,
    pub number: u32,
}

impl From<Option<u32>> for FoundNumbers {
    ghost from_gives = { λ a n. n ≡ found_numbers_of a };

    #[tactic(auto, unfolding(crate::specs::ShortNumbers::found_numbers_of))]
    fn from(a: Option<u32>) -> Self {
        match a {
            Some(number) => FoundNumbers { kind: 0, number },
            None => FoundNumbers { kind: 1, number: 0 },
        }
    }
}

// The number of a short function's unit.
#[unsafe(no_mangle)]
pub extern "C" fn lampruda_short_number(unit: &[u8]) -> FoundNumbers
    ensures { FoundContract unit.now result }
{
    FoundNumbers::from(short::find_number(unit))
}

// How a run at the desk stops: kind 0 returned, with the first slot and the count of the words that it read; 1 refused,
// with number and place; 2 panicked, as 0; 3 the end of the code; 4 another instruction, with its place; 5 the limit.
// Of one step also 6: the run goes on, with the place that is due.
#[repr(C)]
#[derive(Clone, Copy)]
pub struct StopNumbers {
    pub kind: u32,
    pub first: u32,
    pub second: u32,
}

impl From<Result<Stop, Refusal>> for StopNumbers {
    ghost from_gives = { λ a n. n ≡ stop_numbers_of a };

    #[tactic(auto, unfolding(crate::specs::DeskNumbers::stop_numbers_of))]
    fn from(a: Result<Stop, Refusal>) -> Self {
        match a {
            Ok(Stop::Returned(first, second)) => StopNumbers {
                kind: 0,
                first,
                second,
            },
            Err(Refusal { number, place }) => StopNumbers {
                kind: 1,
                first: number,
                second: place,
            },
            Ok(Stop::Panicked(first, second)) => StopNumbers {
                kind: 2,
                first,
                second,
            },
            Ok(Stop::Ended) => StopNumbers {
                kind: 3,
                first: 0,
                second: 0,
            },
            Ok(Stop::Other(first)) => StopNumbers {
                kind: 4,
                first,
                second: 0,
            },
            Ok(Stop::Limit) => StopNumbers {
                kind: 5,
                first: 0,
                second: 0,
            },
        }
    }
}

// A run at the desk.
#[unsafe(no_mangle)]
pub extern "C" fn lampruda_run(unit: &[u8], frame: &mut [u64], limit: u32) -> StopNumbers
    ensures answer { result ≡ stop_numbers_of (desk_answer unit.now frame.old limit).stop }
    ensures frame { frame.new ≡ (desk_answer unit.now frame.old limit).frame }
{
    StopNumbers::from(desk::run(unit, frame, limit))
}

impl From<Result<Next, Refusal>> for StopNumbers {
    ghost from_gives = { λ a n. n ≡ next_numbers_of a };

    #[tactic(auto, unfolding(crate::specs::DeskNumbers::next_numbers_of))]
    fn from(a: Result<Next, Refusal>) -> Self {
        match a {
            Ok(Next::Goes(place)) => StopNumbers {
                kind: 6,
                first: place,
                second: 0,
            },
            Ok(Next::Stops(s)) => StopNumbers::from(Ok(s)),
            Err(Refusal { number, place }) => StopNumbers {
                kind: 1,
                first: number,
                second: place,
            },
        }
    }
}

// One step of it.
#[unsafe(no_mangle)]
pub extern "C" fn lampruda_step(unit: &[u8], frame: &mut [u64], place: u32) -> StopNumbers
    ensures answer { result ≡ next_numbers_of (step_answer unit.now frame.old place).next }
    ensures frame { frame.new ≡ (step_answer unit.now frame.old place).frame }
{
    StopNumbers::from(desk::step(unit, frame, place))
}

// How a charged run stops, as above, and what it costs; 0 where it is refused.
#[repr(C)]
#[derive(Clone, Copy)]
pub struct ChargedNumbers {
    pub kind: u32,
    pub first: u32,
    pub second: u32,
    pub cents: u64,
}

impl From<Result<Charged, Refusal>> for ChargedNumbers {
    ghost from_gives = { λ a n. n ≡ charged_numbers_of (stop_of a) (cents_of a) };

    #[tactic(auto, unfolding(crate::specs::DeskNumbers::charged_numbers_of, crate::specs::DeskNumbers::stop_numbers_of, desk::specs::Charge::stop_of, desk::specs::Charge::cents_of))]
    fn from(a: Result<Charged, Refusal>) -> Self {
        match a {
            Ok(c) => {
                let n = StopNumbers::from(Ok(c.stop));
                ChargedNumbers {
                    kind: n.kind,
                    first: n.first,
                    second: n.second,
                    cents: c.cents,
                }
            }
            Err(Refusal { number, place }) => ChargedNumbers {
                kind: 1,
                first: number,
                second: place,
                cents: 0,
            },
        }
    }
}

// A run at the desk with a price for each step.
#[tactic(auto, unfolding(crate::specs::DeskNumbers::charged_numbers_of))]
#[unsafe(no_mangle)]
pub extern "C" fn lampruda_charge(
    unit: &[u8],
    frame: &mut [u64],
    limit: u32,
    tariff: &[u16],
) -> ChargedNumbers
    ensures answer { result ≡ charged_numbers_of (charge_answer unit.now frame.old limit
        tariff.now).stop (charge_cents unit.now frame.old limit
        tariff.now) }
    ensures frame { frame.new ≡ (charge_answer unit.now frame.old limit
        tariff.now).frame }
    ensures most { result.cents ≤ most_cents }
{
    ChargedNumbers::from(desk::charge(unit, frame, limit, tariff))
}

// A result as a unit again: kind 0 a unit, with its length in bytes; 1 refused, with number and place; 2 no result.
#[repr(C)]
#[derive(Clone, Copy)]
pub struct LaidNumbers {
    pub kind: u32,
    pub number: u32,
    pub place: u32,
    pub length: u64,
}

impl From<Result<Option<usize>, Refusal>> for LaidNumbers {
    ghost from_gives = { λ l n. n ≡ laid_numbers_of l };

    #[tactic(auto, unfolding(crate::specs::DeskNumbers::laid_numbers_of))]
    fn from(l: Result<Option<usize>, Refusal>) -> Self {
        match l {
            Ok(Some(size)) => LaidNumbers {
                kind: 0,
                number: 0,
                place: 0,
                length: size as u64,
            },
            Err(Refusal { number, place }) => LaidNumbers {
                kind: 1,
                number,
                place,
                length: 0,
            },
            Ok(None) => LaidNumbers {
                kind: 2,
                number: 0,
                place: 0,
                length: 0,
            },
        }
    }
}

// A result laid out as a unit again.
#[unsafe(no_mangle)]
pub extern "C" fn lampruda_lay_out(unit: &[u8], res: &[u8], out: &mut [u8]) -> LaidNumbers
    ensures answer { result ≡ laid_numbers_of (laid_answer unit.now res.now
        (length out.old)) }
    ensures out { out.new ≡ output_laid unit.now res.now out.old }
{
    LaidNumbers::from(again::lay_out(unit, res, out))
}
