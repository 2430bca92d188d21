// Replays the recorded answers of the reference (data/answers.txt, whose head says how a line reads): each unit must get the recorded
// answer and output, the rest of the output must stay as it was and the work buffers must end as zeros.
#![tactic(auto)]

ghost use Rattle.std.specs.Prelude.{◌≡◌, ◌↔◌, All, IsTrue};

use optimize::{Answer, pass};
use std::fs::File;
use std::io;
use std::io::{Read, Seek, SeekFrom};
use text::AnswerKind;
use unit::refusal::Refusal;

mod text;

// No byte from here on is read.
const FARTHEST: u64 = 1 << 40;

// What a line records of an answer. The text goes on at `next`.
#[derive(Clone, Copy)]
struct Recorded {
    kind: AnswerKind,
    number: u32,
    place: u32,
    next: usize,
}

// The file up to byte `at`: its lines, its units, and the units that differ.
#[derive(Clone, Copy)]
struct Tally {
    at: u64,
    lines: u64,
    units: u64,
    differ: u64,
}

fn read_answer(text: &[u8], at: usize) -> Recorded {
    let kind = text::kind(text, at);
    let next = text::skip(text, at, b' ');
    if kind == AnswerKind::Unchanged {
        return Recorded {
            kind,
            number: 0,
            place: 0,
            next,
        };
    }
    let number = text::number(text, next);
    let next = text::skip(text, next, b' ');
    if kind == AnswerKind::Rewritten {
        return Recorded {
            kind,
            number,
            place: 0,
            next,
        };
    }
    Recorded {
        kind,
        number,
        place: text::number(text, next),
        next: text::skip(text, next, b' '),
    }
}

fn agrees(a: Result<Answer, Refusal>, r: Recorded) -> bool {
    match a {
        Ok(Answer::Unchanged) => r.kind == AnswerKind::Unchanged,
        Ok(Answer::Rewritten(n)) => (r.kind == AnswerKind::Rewritten) & (r.number == n),
        Err(Refusal { number, place }) => {
            (r.kind == AnswerKind::Refused) & (r.number == number) & (r.place == place)
        }
    }
}

fn all_zero(work32: &[u32], work64: &[u64]) -> bool
    ensures { IsTrue result ↔ All (λ x. x ≡ 0) work32.now × All (λ x. x ≡ 0) work64.now }
{
    work32.iter().all(|word| *word == 0) && work64.iter().all(|word| *word == 0)
}

// Does the output hold the result that is recorded, if one is, at a place of the text, and otherwise what it held before?
fn output_agrees(out: &[u8], text: &[u8], kind: AnswerKind, at: usize) -> bool {
    let mut expected = [0xa5u8; 512];
    let result = if kind == AnswerKind::Rewritten {
        at
    } else {
        text.len()
    };
    text::hex(text, result, &mut expected);
    out == expected.as_slice()
}

// Does one pass give what is recorded?
fn pass_agrees(unit: &[u8], text: &[u8], r: Recorded) -> bool {
    let mut out = [0xa5u8; 512];
    let mut work32 = [0xa5u32; 512];
    let mut work64 = [0xa5u64; 1024];
    let answer = pass::pass(unit, &mut out, &mut work32, &mut work64);
    agrees(answer, r) & output_agrees(&out, text, r.kind, r.next) & all_zero(&work32, &work64)
}

// Does the cleaning? The number of the last pass is before the result.
fn clean_agrees(unit: &[u8], text: &[u8], r: Recorded) -> bool {
    let mut out = [0xa5u8; 512];
    let mut work32 = [0xa5u32; 512];
    let mut work64 = [0xa5u64; 1024];
    let mut first = [0xa5u8; 512];
    let mut second = [0xa5u8; 512];
    let cleaned = clean::clean(
        unit,
        &mut out,
        &mut work32,
        &mut work64,
        &mut first,
        &mut second,
    );
    let answer = cleaned.answer;
    agrees(answer, r)
        & (cleaned.passes == text::number(text, r.next))
        & output_agrees(&out, text, r.kind, text::skip(text, r.next, b' '))
        & all_zero(&work32, &work64)
        & (first == [0; 512])
        & (second == [0; 512])
}

// Does the line at the start of the text agree?
fn line_agrees(text: &[u8]) -> bool {
    let mut unit = [0u8; 512];
    let n = text::hex(text, 0, &mut unit);
    let p = read_answer(text, text::skip(text, 0, b' '));
    let next = if p.kind == AnswerKind::Rewritten {
        text::skip(text, p.next, b' ')
    } else {
        p.next
    };
    let c = read_answer(text, next);
    pass_agrees(&unit[..n], text, p) & clean_agrees(&unit[..n], text, c)
}

// 1 for a unit that differs, which is told of, else 0.
fn differences(rt: &impl Print, text: &[u8], line: u64) -> io::Result<u64> {
    if line_agrees(text) {
        return Ok(0);
    }
    println!(rt; "differs: line {line}")?;
    Ok(1)
}

// The tally after one line more; at the end of the file it stays.
fn after_line<F: Read + Seek>(rt: &impl Print, file: &mut F, t: Tally) -> io::Result<Tally> {
    let mut space = [0u8; 4096];
    file.seek(SeekFrom::Start(t.at))?;
    let n = input::read_full(file, &mut space)?;
    let text = &space[..n];
    if n == 0 {
        return Ok(t);
    }
    let at = t.at.wrapping_add(text::skip(text, 0, b'\n') as u64);
    let lines = t.lines.wrapping_add(1);
    if text::byte(text, 0) == b'#' {
        return Ok(Tally { at, lines, ..t });
    }
    Ok(Tally {
        at,
        lines,
        units: t.units.wrapping_add(1),
        differ: t.differ.wrapping_add(differences(rt, text, lines)?),
    })
}

fn replay<F: Read + Seek>(rt: &impl Print, file: &mut F) -> io::Result<Tally> {
    let mut t = Tally {
        at: 0,
        lines: 0,
        units: 0,
        differ: 0,
    };
    for _ in 0..FARTHEST {
        if t.at >= FARTHEST {
            return Ok(t);
        }
        let next = after_line(rt, file, t)?;
        if next.at <= t.at {
            return Ok(t);
        }
        t = next;
    }
    Ok(t)
}

fn main(rt: HostRuntime) -> io::Result<()> {
    let mut file = File::open(&rt, "answers.txt")?;
    let t = replay(&rt, &mut file)?;
    let units = t.units;
    let differ = t.differ;
    println!(rt; "{units} units, {differ} differ")
}
