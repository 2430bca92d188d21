// Reads a unit from standard input, runs one pass on it and prints the answer and the instructions.
#![tactic(auto)]

ghost use Rattle.std.specs.Prelude.{◌≡◌, ◌≤◌, IfSome, OnOk, length, take};
ghost use Rattle.std.specs.Io.KnownBytes.{Appends};
ghost use Rattle.answer.specs.Answer.{lent_of};
ghost use Rattle.listing.specs.Text.{listing, listing_with};
ghost use Rattle.listing.specs.laws.Puts.{Puts};

use optimize::pass;
use std::io;
use std::io::{Read, Write};
use unit::refusal::Reason;

mod text;

// One pass with these buffers, and the text of its answer.
fn list_pass(
    unit: &[u8],
    text: &mut [u8],
    out: &mut [u8],
    work32: &mut [u32],
    work64: &mut [u64],
) -> usize
    requires out { length out.old ≤ 8192 }
    requires room { 65536 ≤ length text.old }
    ensures { Puts 0 (listing_with unit.now out.old (lent_of (length out.old) (length work32.old) (length work64.old))) text.old text.new result }
{
    let answer = pass::pass(unit, out, work32, work64);
    text::put_answer(text, answer, out)
}

// What is printed of a unit.
fn list(unit: &[u8], text: &mut [u8; 65536]) -> usize
    ensures inside { result ≤ length text.new }
    ensures long { result ≡ length (take result text.new) }
    ensures text { take result text.new ≡ listing unit.now }
{
    let mut out = [0u8; 8192];
    if unit.len() > 2048 {
        return text::put_answer(text, Err(Reason::ShortBuffer.at(0)), &out);
    }
    let mut work32 = [0u32; 4096];
    let mut work64 = [0u64; 8192];
    list_pass(unit, text, &mut out, &mut work32, &mut work64)
}

// What is written of a unit that is read, whose length no one tells.
fn list_all<R: Read, W: Write>(input: &mut R, output: &mut W) -> io::Result<()>
    ensures { OnOk result (IfSome (R.remaining input.old) (λ unit. Appends (W.contents output.old) (W.contents output.new) (listing unit))) }
{
    // one byte more than a unit may have
    let mut unit = [0u8; 2049];
    let n = input::read_full(input, &mut unit)?;
    let mut text = [0u8; 65536];
    let end = list(&unit[..n], &mut text);
    output.write_all(&text[..end])
}

fn main(rt: HostRuntime) -> io::Result<()> {
    list_all(&mut rt.stdin(), &mut rt.stdout())
}
