// One pass over every short function, and how many were unchanged, rewritten and refused.
#![tactic(auto)]

ghost use Rattle.std.specs.Prelude.{◌≡◌, cond, suc, ◌≤◌, ◌<◌, ◌^◌, length, take};
ghost use Rattle.answer.specs.Answer.{lent_of, pass_answer};
ghost use Rattle.optimize.specs.PassAnswer.{answer_of};
ghost use Rattle.short.specs.Short.{short_count};
ghost use Rattle.survey.specs.Survey.{kind_of, same_kind, lent, kind_at, counted};
ghost use Rattle.survey.specs.declared.AnswerKind.TheVariants.{Unchanged, Rewritten, Refused};

use optimize::{Answer, pass};
use std::io;
use unit::refusal::Refusal;

#[derive(Clone, Copy)]
enum AnswerKind {
    Unchanged,
    Rewritten,
    Refused,
}

// How many of each kind.
#[derive(Clone, Copy)]
struct Tally {
    unchanged: u64,
    rewritten: u64,
    refused: u64,
}

#[tactic(auto, unfolding(crate::specs::Survey::kind_of))]
fn kind(a: Result<Answer, Refusal>) -> AnswerKind
    ensures { result ≡ kind_of a }
{
    match a {
        Ok(Answer::Unchanged) => AnswerKind::Unchanged,
        Ok(Answer::Rewritten(_)) => AnswerKind::Rewritten,
        Err(_) => AnswerKind::Refused,
    }
}

// The kind of the answer for a unit.
fn kind_of_unit(unit: &[u8], out: &mut [u8], work32: &mut [u32], work64: &mut [u64]) -> AnswerKind
    ensures { result ≡ kind_of (answer_of (pass_answer unit.now (lent_of (length out.old) (length work32.old) (length work64.old)))) }
{
    kind(pass::pass(unit, out, work32, work64))
}

// The kind of the answer for the unit at the front of a buffer.
fn kind_of_front(buffer: &[u8], size: u32) -> AnswerKind
    requires { size ≤ length buffer.now }
    ensures { result ≡ kind_of (answer_of (pass_answer (take size buffer.now) lent)) }
{
    let mut out = [0u8; 256];
    let mut work32 = [0u32; 128];
    let mut work64 = [0u64; 256];
    kind_of_unit(&buffer[..size as usize], &mut out, &mut work32, &mut work64)
}

// The kind of the answer for a number, whose unit fits.
fn kind_of(number: u32) -> AnswerKind
    requires { number < short_count }
    ensures { result ≡ kind_at number }
{
    let mut buffer = [0u8; 256];
    match short::make_unit(number, &mut buffer) {
        Ok(Some(size)) => kind_of_front(&buffer, size),
        Ok(None) => AnswerKind::Refused,
        Err(_) => AnswerKind::Refused,
    }
}

// One more of a kind.
#[tactic(auto, unfolding(crate::specs::Survey::same_kind))]
fn more(t: Tally, kind: AnswerKind) -> Tally
    requires { (t.unchanged < 2 ^ 32) × (t.rewritten < 2 ^ 32) × (t.refused < 2 ^ 32) }
    ensures unchanged { result.unchanged ≡ cond (same_kind kind Unchanged) (suc t.unchanged) t.unchanged }
    ensures rewritten { result.rewritten ≡ cond (same_kind kind Rewritten) (suc t.rewritten) t.rewritten }
    ensures refused { result.refused ≡ cond (same_kind kind Refused) (suc t.refused) t.refused }
{
    match kind {
        AnswerKind::Unchanged => Tally {
            unchanged: t.unchanged + 1,
            ..t
        },
        AnswerKind::Rewritten => Tally {
            rewritten: t.rewritten + 1,
            ..t
        },
        AnswerKind::Refused => Tally {
            refused: t.refused + 1,
            ..t
        },
    }
}

// Over all numbers.
fn count_all() -> Tally
    ensures unchanged { result.unchanged ≡ counted Unchanged short_count }
    ensures rewritten { result.rewritten ≡ counted Rewritten short_count }
    ensures refused { result.refused ≡ counted Refused short_count }
{
    let mut t = Tally {
        unchanged: 0,
        rewritten: 0,
        refused: 0,
    };
    for number in 0..short::COUNT {
        t = more(t, kind_of(number));
    }
    t
}

fn print(rt: &impl Print, name: &str, count: u64) -> io::Result<()> {
    println!(rt; "{name} {count}")
}

fn main(rt: HostRuntime) -> io::Result<()> {
    let s = count_all();
    print(&rt, "unchanged", s.unchanged)?;
    print(&rt, "rewritten", s.rewritten)?;
    print(&rt, "refused", s.refused)
}
