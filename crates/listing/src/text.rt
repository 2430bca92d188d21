// The text of an answer. Each function puts a text into the buffer from `at` on and gives the place after it.
ghost use Rattle.std.specs.Prelude.{◌+◌, ◌*◌, ◌≤◌, ◌<◌, length};
ghost use Rattle.listing.specs.Text.{decimal, ended, fields, line, lines, text_of};
ghost use Rattle.listing.specs.laws.Puts.{Puts, Listed, Fits};

use instruction::Instruction;
use optimize::Answer;
use unit::refusal::Refusal;
use unit::{result, size};
use words::le;

fn put_bytes(text: &mut [u8], at: usize, s: &[u8]) -> usize
    requires { at + length s.now ≤ length text.old }
    ensures { Puts at s.now text.old text.new result }
{
    let end = at + s.len();
    text[at..end].copy_from_slice(s);
    end
}

// The decimal digits of a number, the last k if it has more.
fn put_decimal(text: &mut [u8], at: usize, v: u32, k: usize) -> usize
    requires { at + k ≤ length text.old }
    ensures text { Puts at (decimal k v) text.old text.new result }
    ensures most { result ≤ at + k }
{
    if k == 0 {
        return at;
    }
    let to = if v < 10 {
        at
    } else {
        put_decimal(text, at, v / 10, k - 1)
    };
    text[to] = b'0' + (v % 10) as u8;
    to + 1
}

// A number and the byte after it.
fn put_number(text: &mut [u8], at: usize, v: u32, end: u8) -> usize
    requires { at + 11 ≤ length text.old }
    ensures text { Puts at (ended v end) text.old text.new result }
    ensures most { result ≤ at + 11 }
{
    let to = put_decimal(text, at, v, 10);
    text[to] = end;
    to + 1
}

fn put_fields(text: &mut [u8], at: usize, i: Instruction) -> usize
    requires { at + 55 ≤ length text.old }
    ensures text { Puts at (fields i) text.old text.new result }
    ensures most { result ≤ at + 55 }
{
    let at = put_number(text, at, i.op as u32, b' ');
    let at = put_number(text, at, i.flags as u32, b' ');
    let at = put_number(text, at, i.a as u32, b' ');
    let at = put_number(text, at, i.b as u32, b' ');
    put_number(text, at, i.c as u32, b'\n')
}

// New place, old place and fields of the instruction at a place of the result.
fn put_line(text: &mut [u8], at: usize, out: &[u8], n: usize, p: usize) -> usize
    requires listed { Listed n (length out.now) }
    requires place { p < n }
    requires room { at + 77 ≤ length text.old }
    ensures text { Puts at (line out.now n p) text.old text.new result }
    ensures most { result ≤ at + 77 }
{
    let old = le::read_u32(out, result::places_at(n) + 4 * p);
    let i = instruction::read(&out[size::RESULT_HEADER..], p);
    let at = put_number(text, at, p as u32, b' ');
    let at = put_number(text, at, old, b' ');
    put_fields(text, at, i)
}

fn put_lines(text: &mut [u8], at: usize, out: &[u8], n: usize) -> usize
    requires listed { Listed n (length out.now) }
    requires room { at + 77 * n ≤ length text.old }
    ensures { Puts at (lines out.now n n) text.old text.new result }
{
    let mut end = at;
    for k in 0..n {
        end = put_line(text, end, out, n, k);
    }
    end
}

pub fn put_answer(text: &mut [u8], a: Result<Answer, Refusal>, out: &[u8]) -> usize
    requires fits { Fits a (length out.now) }
    requires room { 65536 ≤ length text.old }
    ensures { Puts 0 (text_of a out.now) text.old text.new result }
{
    match a {
        Ok(Answer::Unchanged) => put_bytes(text, 0, b"unchanged\n"),
        Err(r) => {
            let at = put_bytes(text, 0, b"refused ");
            let at = put_number(text, at, r.number, b' ');
            put_number(text, at, r.place, b'\n')
        }
        Ok(Answer::Rewritten(n)) => {
            let at = put_bytes(text, 0, b"rewritten ");
            let at = put_number(text, at, n, b'\n');
            put_lines(text, at, out, n as usize)
        }
    }
}
