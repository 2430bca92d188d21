// All short functions (document 02, L11): those of 2, 3 and 4 instructions out of 24, over two slots, each by its number.
#![tactic(auto)]

ghost use Rattle.std.specs.Prelude.{◌≡◌, true, ℕ, Some, IfSome, ◌+◌, ◌*◌, ◌-◌, ◌/◌, ◌%◌, ◌^◌, ◌≤◌, ◌<◌, length, get_or};
ghost use Rattle.instruction.specs.Instruction.{to_word};
ghost use Rattle.short.specs.Short.{short_at, short_count, length_of, first_of, rank_of, unit_size, header_words, digits, unit_at, made_of, buffer_after, HasNumber};

use instruction::{Instruction, opcode};
use unit::refusal::{Reason, Refusal};
use unit::size;
use words::le;

// How many there are, and where those of three and of four instructions start.
pub const COUNT: u32 = 346176;

const FIRST_OF_THREE: u32 = 576;

const FIRST_OF_FOUR: u32 = 14400;

const INSTRUCTIONS: u64 = 24;

const LAST: u64 = 23;

// The 24 instructions, in their order.
#[tactic(auto, unfolding(crate::specs::Short::short_at))]
fn instruction(d: u64) -> Instruction
    requires { d < 24 }
    ensures { result ≡ short_at d }
{
    match d {
        0 => Instruction::new(opcode::LOAD_INT, 0, 0, 0),
        1 => Instruction::new(opcode::LOAD_INT, 0, 1, 0),
        2 => Instruction::new(opcode::LOAD_INT, 1, 0, 0),
        3 => Instruction::new(opcode::LOAD_INT, 1, 1, 0),
        4 => Instruction::new(opcode::COPY, 0, 0, 0),
        5 => Instruction::new(opcode::COPY, 0, 1, 0),
        6 => Instruction::new(opcode::COPY, 1, 0, 0),
        7 => Instruction::new(opcode::COPY, 1, 1, 0),
        8 => Instruction::new(opcode::ADD_I, 0, 0, 0),
        9 => Instruction::new(opcode::ADD_I, 0, 0, 1),
        10 => Instruction::new(opcode::ADD_I, 0, 1, 0),
        11 => Instruction::new(opcode::ADD_I, 0, 1, 1),
        12 => Instruction::new(opcode::ADD_I, 1, 0, 0),
        13 => Instruction::new(opcode::ADD_I, 1, 0, 1),
        14 => Instruction::new(opcode::ADD_I, 1, 1, 0),
        15 => Instruction::new(opcode::ADD_I, 1, 1, 1),
        16 => Instruction::new(opcode::JUMP_IF, 0, 65535, 65535),
        17 => Instruction::new(opcode::JUMP_IF, 0, 1, 0),
        18 => Instruction::new(opcode::JUMP_IF, 1, 65535, 65535),
        19 => Instruction::new(opcode::JUMP_IF, 1, 1, 0),
        20 => Instruction::new(opcode::JUMP, 0, 65535, 65535),
        21 => Instruction::new(opcode::JUMP, 0, 1, 0),
        22 => Instruction::new(opcode::RETURN, 0, 0, 0),
        _ => Instruction::new(opcode::RETURN, 0, 1, 0),
    }
}

fn word(d: u64) -> u64
    requires { d < 24 }
    ensures { result ≡ to_word (short_at d) }
{
    instruction(d).word()
}

// The instruction with that word, by its place among the 24. Where there is none it is the last: the bytes are compared afterwards.
fn index(w: u64) -> u64
    ensures { (result < 24) × ((d : ℕ) → d < 24 → w ≡ to_word (short_at d) → result ≡ d) }
{
    for d in 0..LAST {
        if word(d) == w {
            return d;
        }
    }
    LAST
}

// How many instructions the function of a number has.
fn length_of(number: u32) -> usize
    ensures { result ≡ length_of number }
{
    if number < FIRST_OF_THREE {
        return 2;
    }
    if number < FIRST_OF_FOUR { 3 } else { 4 }
}

// The number of the first function of n instructions.
fn first_of(n: usize) -> u32
    ensures { result ≡ first_of n }
{
    if n == 2 {
        return 0;
    }
    if n == 3 {
        FIRST_OF_THREE
    } else {
        FIRST_OF_FOUR
    }
}

fn unit_size(n: usize) -> usize
    requires { n ≤ 4 }
    ensures { result ≡ unit_size n }
{
    size::HEADER + size::INSTRUCTION * n + size::METADATA * n + 2
}

fn header_word(n: usize, q: usize) -> u64
    requires { (n ≤ 4) × (q < 18) }
    ensures { result ≡ get_or (header_words n) q 0 }
{
    let end = unit_size(n) as u64;
    let words = [
        n as u64,
        n as u64,
        2,
        2,
        0,
        0,
        0,
        0,
        0,
        size::HEADER as u64,
        (size::HEADER + size::INSTRUCTION * n) as u64,
        end - 2,
        end,
        end,
        end,
        end,
        0,
        end,
    ];
    words[q]
}

// The i-th byte of a number: of its low eight bytes.
fn byte_of(w: u64, i: usize) -> u8
    requires { i < 8 }
    ensures { result ≡ w / 256 ^ i % 256 }
{
    w.to_le_bytes()[i]
}

// The place among the 24 of the instruction at place p, in the function of n instructions with that rank.
fn digit(rank: u64, n: usize, p: usize) -> u64
    requires { (p < n) × (n ≤ 4) }
    ensures { (result ≡ get_or (digits n rank) p 0) × (result < 24) }
{
    rank / INSTRUCTIONS.pow((n - 1 - p) as u32) % INSTRUCTIONS
}

// The i-th byte of the unit of the function of n instructions with that rank.
fn byte(rank: u64, n: usize, i: usize) -> u8
    requires { (n ≤ 4) × (i < unit_size n) }
    ensures { result ≡ get_or (unit_at n rank) i 0 }
{
    if i < size::HEADER {
        return byte_of(header_word(n, i / 4), i % 4);
    }
    let at = i - size::HEADER;
    if at < size::INSTRUCTION * n {
        return byte_of(word(digit(rank, n, at / 8)), at % 8);
    }
    0
}

// The unit of a number, at the front of a buffer: its length in bytes, or none past the last number.
pub fn make_unit(number: u32, out: &mut [u8]) -> Result<Option<u32>, Refusal>
    ensures { (result ≡ made_of number (length out.old)) × (out.new ≡ buffer_after number out.old) }
{
    if number >= COUNT {
        return Ok(None);
    }
    let n = length_of(number);
    let end = unit_size(n);
    if out.len() < end {
        return Err(Reason::ShortBuffer.at(0));
    }
    let rank = (number - first_of(n)) as u64;
    for i in 0..end {
        out[i] = byte(rank, n, i);
    }
    Ok(Some(end as u32))
}

// How many instructions a unit of that length has.
fn length_of_unit(size: usize) -> Option<usize>
    ensures only { (n : ℕ) → 2 ≤ n → n ≤ 4 → size ≡ unit_size n → result ≡ Some n }
    ensures some { IfSome result (λ n. (2 ≤ n) × (n ≤ 4) × (size ≡ unit_size n)) }
{
    if size == unit_size(2) {
        return Some(2);
    }
    if size == unit_size(3) {
        return Some(3);
    }
    if size == unit_size(4) { Some(4) } else { None }
}

// The rank that the function in a unit of n instructions has, if it has one.
fn rank(unit: &[u8], n: usize) -> u64
    requires { (2 ≤ n) × (n ≤ 4) × (length unit.now ≡ unit_size n) }
    ensures { (result < 24 ^ n) × ((k : ℕ) → k < 24 ^ n → unit.now ≡ unit_at n k → result ≡ k) }
{
    let mut rank = 0;
    for p in 0..n {
        rank = INSTRUCTIONS * rank
            + index(le::read_u64(unit, size::HEADER + size::INSTRUCTION * p));
    }
    rank
}

// Is this the unit of the function of n instructions with that rank?
fn is_unit_of(unit: &[u8], n: usize, rank: u64) -> bool
    requires { (n ≤ 4) × (length unit.now ≡ unit_size n) }
    ensures { (result ≡ true → unit.now ≡ unit_at n rank) × (unit.now ≡ unit_at n rank → result ≡ true) }
{
    for (i, it) in unit.iter().enumerate() {
        if *it != byte(rank, n, i) {
            return false;
        }
    }
    true
}

// The number of a unit, if it has one.
pub fn find_number(unit: &[u8]) -> Option<u32>
    ensures { HasNumber unit.now result }
{
    let n = length_of_unit(unit.len())?;
    let rank = rank(unit, n);
    if !is_unit_of(unit, n, rank) {
        return None;
    }
    Some(first_of(n) + (rank as u32))
}
