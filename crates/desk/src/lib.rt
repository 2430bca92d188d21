// Running a function at the desk (document 02, L6): the run of document 01, of integer instructions, over a lent frame
// and up to a limit; and what such a run costs (L12).
#![tactic(auto)]

ghost use Rattle.std.specs.Prelude.{◌≡◌, ◌≤◌};
ghost use Rattle.desk.specs.Answer.{desk_answer, step_answer};
ghost use Rattle.desk.specs.Charge.{charge_answer, charge_cents, stop_of, cents_of, most_cents};

use unit::refusal::Refusal;

pub mod check;
pub mod copy;
pub mod execution;

// How a run stops: Return or Panic with the first slot and the count of the words that it read, the end of the code,
// the place of the first other instruction, or the limit.
#[derive(Clone, Copy)]
pub enum Stop {
    Returned(u32, u32),
    Panicked(u32, u32),
    Ended,
    Other(u32),
    Limit,
}

// What a step does: it goes to a place, or the run stops.
#[derive(Clone, Copy)]
pub enum Next {
    Goes(u32),
    Stops(Stop),
}

// "A tariff holds 256 prices of 16 bits, one per opcode byte"
pub const PRICES: usize = 256;

// How a charged run stops, and what it costs.
#[derive(Clone, Copy)]
pub struct Charged {
    pub stop: Stop,
    pub cents: u64,
}

// "a run over a unit, a lent frame of s words and a step limit below 2^32"
pub fn run(unit: &[u8], frame: &mut [u64], limit: u32) -> Result<Stop, Refusal>
    ensures answer { result ≡ (desk_answer unit.now frame.old limit).stop }
    ensures frame { frame.new ≡ (desk_answer unit.now frame.old limit).frame }
{
    check::check(unit, frame.len())?;
    let reached = execution::advance(unit, frame, 0, limit);
    Ok(execution::stop_at(unit, reached.place, reached.left))
}

// One step of it, from any place.
pub fn step(unit: &[u8], frame: &mut [u64], place: u32) -> Result<Next, Refusal>
    ensures answer { result ≡ (step_answer unit.now frame.old place).next }
    ensures frame { frame.new ≡ (step_answer unit.now frame.old place).frame }
{
    check::check(unit, frame.len())?;
    let reached = execution::advance(unit, frame, place as usize, 1);
    if reached.left == 0 {
        return Ok(Next::Goes(reached.place as u32));
    }
    Ok(Next::Stops(execution::stop_at(unit, reached.place, 1)))
}

// The same run with a price for each step: "the price of all executed instructions, divided by 1,000 and rounded up to
// a whole cent"
pub fn charge(
    unit: &[u8],
    frame: &mut [u64],
    limit: u32,
    tariff: &[u16],
) -> Result<Charged, Refusal>
    ensures answer { stop_of result ≡ (charge_answer unit.now frame.old limit
        tariff.now).stop }
    ensures frame { frame.new ≡ (charge_answer unit.now frame.old limit
        tariff.now).frame }
    ensures cents { cents_of result ≡ charge_cents unit.now frame.old limit
        tariff.now }
    ensures most { cents_of result ≤ most_cents }
{
    check::check_charge(unit, frame.len(), tariff.len())?;
    let paid = execution::advance_priced(unit, frame, tariff, 0, limit);
    let stop = execution::stop_at(unit, paid.place, paid.left);
    let last = execution::stop_price(unit, tariff, paid.place, Ok(stop));
    let spent = paid.spent + last;
    let cents = (spent + 999) / 1000;
    Ok(Charged { stop, cents })
}
