// Reading the text of the recorded answers. Past its end it reads as spaces.
ghost use Rattle.std.specs.Prelude.{◌≡◌, ◌<◌, ◌≤◌, length, take};
ghost use Rattle.replay.specs.Recorded.{byte_at, skipped, kind_at, number_at};

#[derive(Clone, Copy, PartialEq, Eq)]
pub enum AnswerKind {
    Unchanged,
    Refused,
    Rewritten,
}

pub fn byte(text: &[u8], at: usize) -> u8
    ensures { result ≡ byte_at text.now at }
{
    if at < text.len() { text[at] } else { b' ' }
}

// Past the next byte that is at most `last`: a space or a newline.
pub fn skip(text: &[u8], at: usize, last: u8) -> usize
    ensures { result ≡ skipped text.now at last }
{
    for i in at..text.len() {
        if text[i] <= last {
            return i + 1;
        }
    }
    at.max(text.len())
}

// The answer's word, by its third letter.
pub fn kind(text: &[u8], at: usize) -> AnswerKind
    ensures { result ≡ kind_at text.now at }
{
    match byte(text, at.wrapping_add(2)) {
        b'c' => AnswerKind::Unchanged,
        b'f' => AnswerKind::Refused,
        _ => AnswerKind::Rewritten,
    }
}

// A number of at most nine digits.
pub fn number(text: &[u8], at: usize) -> u32
    ensures { result ≡ number_at text.now at }
{
    let mut v: u32 = 0;
    for k in 0..9 {
        let b = byte(text, at.wrapping_add(k));
        if b <= b' ' {
            return v;
        }
        v = v % 100000000 * 10 + (b % 16) as u32;
    }
    v
}

fn digit(b: u8) -> u8
    ensures { result < 16 }
{
    if b < b'a' { b % 16 } else { (b - 87) % 16 }
}

// The bytes of a hexadecimal word, as many as there is room for.
pub fn hex(text: &[u8], at: usize, to: &mut [u8]) -> usize
    ensures inside { result ≤ length to.new }
    ensures long { result ≡ length (take result to.new) }
{
    let mut i = at;
    for k in 0..to.len() {
        let b = byte(text, i);
        if b <= b' ' {
            return k;
        }
        to[k] = 16 * digit(b) + digit(byte(text, i.wrapping_add(1)));
        i = i.wrapping_add(2);
    }
    to.len()
}
