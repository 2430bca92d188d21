// What is due at an instruction, and how far a run goes by it.
ghost use Rattle.std.specs.Prelude.{◌≡◌, ℕ, suc, ◌+◌, ◌*◌, ◌%◌, ◌^◌, ◌<◌, ◌≤◌, Bool, true, List, length, set, if◌then◌else◌, slice_index, slice_set};
ghost use Rattle.instruction.specs.Instruction.{instruction_at, imm32};
ghost use Rattle.unit.specs.Entry.{constant_at};
ghost use Rattle.unit.specs.Layout.{is_unit};
ghost use Rattle.values.specs.Fold.{fold_word};
ghost use Rattle.answer.specs.Answer.{cells_of, sections_of};
ghost use Rattle.run.specs.Returned.{given_function};
ghost use Rattle.run.specs.laws.Runnable.{Runnable};
ghost use Rattle.desk.specs.Desk.{loads};
ghost use Rattle.desk.specs.Charge.{prices, price_at};
ghost use Rattle.desk.specs.laws.Stands.{is_executed};
ghost use Rattle.desk.specs.laws.Execution.{due_in, goes_to, frame_after, Executable, has_word};
ghost use Rattle.desk.specs.laws.Advance.{Placed, advanced, stop_at};
ghost use Rattle.desk.specs.laws.Priced as priced;
ghost use Rattle.desk.specs.laws.Spent.{stop_price};

use crate::{PRICES, Stop, copy};
use instruction::{Class, Instruction, opcode};
use unit::refusal::Refusal;
use unit::{Constant, entry, section, size};
use values::fold;

// No place: what stops at an instruction goes nowhere. No Option: each step would return a second word.
const NOWHERE: u64 = 4294967296;

// The prices of a run that is not charged.
const FREE: [u16; PRICES] = [0; PRICES];

// How far a run went: to a place, with so many steps left.
#[derive(Clone, Copy)]
pub struct Progress {
    pub place: usize,
    pub left: u32,
}

// How far a charged run went, and the price of the steps that were done.
#[derive(Clone, Copy)]
pub struct PricedProgress {
    pub place: usize,
    pub left: u32,
    pub spent: u64,
}

// Slot a gets the word, and the next place is due.
fn store(frame: &mut [u64], p: usize, a: u16, w: u64) -> u64
    requires place { p + 1 < 2 ^ 32 }
    requires slot { a < length frame.old }
    ensures place { result ≡ suc p }
    ensures frame { frame.new ≡ slice_set frame.old a w }
{
    frame[a as usize] = w;
    p as u64 + 1
}

// "LoadConst of kinds 0 to 3"
#[tactic(auto, unfolding(crate::specs::Desk::loads, crate::specs::laws::Execution::goes_to, crate::specs::laws::Execution::frame_after))]
fn load(constants: &[u8], frame: &mut [u64], p: usize, a: u16, b: u16) -> u64
    requires place { p + 1 < 2 ^ 32 }
    requires slot { a < length frame.old }
    ensures place { result ≡ goes_to (loads p frame.old a (constant_at constants.now b)) }
    ensures frame { frame.new ≡ frame_after frame.old
        (loads p frame.old a (constant_at constants.now b)) }
{
    match entry::constant(constants, b as usize) {
        Some(Constant::Nil) => store(frame, p, a, 0),
        Some(Constant::Bool(v)) => store(frame, p, a, v),
        Some(Constant::Int(v)) => store(frame, p, a, v),
        Some(Constant::Float(v)) => store(frame, p, a, v),
        Some(Constant::String) => NOWHERE,
        None => NOWHERE,
    }
}

// Stores the word that a folding opcode gives of slot b. The opcode is handed over as a constant, so that the compiler
// leaves one case of the fold.
fn operate_unary(frame: &mut [u64], p: usize, i: Instruction, op: u8) -> u64
    requires place { p + 1 < 2 ^ 32 }
    requires left { i.b < length frame.old }
    requires slot { i.a < length frame.old }
    ensures place { result ≡ suc p }
    ensures frame { frame.new ≡ set frame.old i.a
        (fold_word op i.flags (slice_index frame.old i.b) 0) }
{
    let w = fold::fold_word(op, i.flags, frame[i.b as usize], 0);
    store(frame, p, i.a, w)
}

// Stores the word that it gives of slots b and c.
fn operate_binary(frame: &mut [u64], p: usize, i: Instruction, op: u8) -> u64
    requires place { p + 1 < 2 ^ 32 }
    requires left { i.b < length frame.old }
    requires right { i.c < length frame.old }
    requires slot { i.a < length frame.old }
    ensures place { result ≡ suc p }
    ensures frame { frame.new ≡ set frame.old i.a
        (fold_word op i.flags (slice_index frame.old i.b) (slice_index frame.old i.c)) }
{
    let w = fold::fold_word(op, i.flags, frame[i.b as usize], frame[i.c as usize]);
    store(frame, p, i.a, w)
}

// A jump's target where it is taken, and else the next place.
fn jump(p: usize, i: Instruction, taken: bool) -> u64
    requires place { p + 1 < 2 ^ 32 }
    ensures place { result ≡ (if taken then (p + imm32 i) % 2 ^ 64 else suc p) }
{
    if taken {
        return (p as u64).wrapping_add(i.imm32());
    }
    p as u64 + 1
}

// Does what is due at place p, and yields the place that is due next. One match has a case for each opcode: the
// processor jumps once an instruction.
fn execute(code: &[u8], constants: &[u8], frame: &mut [u64], p: usize) -> u64
    requires code { 8 * p + 8 ≤ length code.now }
    requires executable { Executable (length frame.old) p (instruction_at code.now p) }
    ensures place { result ≡ goes_to (due_in code.now constants.now p frame.old) }
    ensures frame { frame.new ≡ frame_after frame.old
        (due_in code.now constants.now p frame.old) }
{
    let i = instruction::read(code, p);
    let op = i.op;
    match op {
        opcode::HINT => p as u64 + 1,
        opcode::LOAD_INT => store(frame, p, i.a, i.imm32()),
        opcode::LOAD_CONST => load(constants, frame, p, i.a, i.b),
        opcode::COPY => {
            let w = frame[i.b as usize];
            store(frame, p, i.a, w)
        }
        opcode::COPY_N => {
            copy::copy_words(frame, i.a as usize, i.b as usize, i.c as usize);
            p as u64 + 1
        }
        opcode::JUMP => jump(p, i, true),
        opcode::JUMP_IF => {
            let holds = frame[i.a as usize] != 0;
            jump(p, i, holds)
        }
        opcode::JUMP_IF_NOT => {
            let holds = frame[i.a as usize] == 0;
            jump(p, i, holds)
        }
        opcode::NEG_I => operate_unary(frame, p, i, opcode::NEG_I),
        opcode::NOT => operate_unary(frame, p, i, opcode::NOT),
        opcode::BOOL_NOT => operate_unary(frame, p, i, opcode::BOOL_NOT),
        opcode::TRUNC => operate_unary(frame, p, i, opcode::TRUNC),
        opcode::ADD_I => operate_binary(frame, p, i, opcode::ADD_I),
        opcode::SUB_I => operate_binary(frame, p, i, opcode::SUB_I),
        opcode::MUL_I => operate_binary(frame, p, i, opcode::MUL_I),
        opcode::EQ_I => operate_binary(frame, p, i, opcode::EQ_I),
        opcode::NE_I => operate_binary(frame, p, i, opcode::NE_I),
        opcode::LT_I => operate_binary(frame, p, i, opcode::LT_I),
        opcode::LT_U => operate_binary(frame, p, i, opcode::LT_U),
        opcode::LE_I => operate_binary(frame, p, i, opcode::LE_I),
        opcode::LE_U => operate_binary(frame, p, i, opcode::LE_U),
        opcode::GT_I => operate_binary(frame, p, i, opcode::GT_I),
        opcode::GT_U => operate_binary(frame, p, i, opcode::GT_U),
        opcode::GE_I => operate_binary(frame, p, i, opcode::GE_I),
        opcode::GE_U => operate_binary(frame, p, i, opcode::GE_U),
        opcode::AND => operate_binary(frame, p, i, opcode::AND),
        opcode::OR => operate_binary(frame, p, i, opcode::OR),
        opcode::XOR => operate_binary(frame, p, i, opcode::XOR),
        opcode::AND_NOT => operate_binary(frame, p, i, opcode::AND_NOT),
        _ => NOWHERE,
    }
}

// Has the constant a word? "kinds 0 to 3"
#[tactic(auto, unfolding(crate::specs::laws::Execution::has_word))]
fn has_word(constant: Option<Constant>) -> bool
    ensures answer { result ≡ has_word constant }
{
    matches!(
        constant,
        Some(Constant::Nil | Constant::Bool(_) | Constant::Int(_) | Constant::Float(_))
    )
}

// Is the instruction at place p one that the desk executes?
#[tactic(auto, unfolding(crate::specs::Desk::due_by, crate::specs::laws::Stands::is_executed))]
fn is_executed(code: &[u8], constants: &[u8], p: usize) -> bool
    requires code { 8 * p + 8 ≤ length code.now }
    ensures answer { (f : List ℕ)
        → result ≡ is_executed (due_in code.now constants.now p f) }
{
    let i = instruction::read(code, p);
    match i.class() {
        Class::LoadConst => has_word(entry::constant(constants, i.b as usize)),
        Class::Unary => fold::folds_unary(i.op),
        Class::Binary => fold::folds_binary(i.op),
        Class::ForLoop | Class::Outside | Class::Invalid => false,
        Class::Hint
        | Class::LoadInt
        | Class::Copy
        | Class::CopyN
        | Class::Jump
        | Class::JumpIf
        | Class::JumpIfNot
        | Class::Return
        | Class::Panic => true,
    }
}

// The price of the instruction at place p.
fn price_at(code: &[u8], tariff: &[u16], p: usize) -> u64
    requires code { 8 * p + 8 ≤ length code.now }
    requires tariff { length tariff.now ≡ prices }
    ensures price { result ≡ slice_index tariff.now (instruction_at code.now p).op }
{
    let i = instruction::read(code, p);
    tariff[i.op as usize] as u64
}

// Goes on from a place while steps are left and there is somewhere to go, and adds up the prices.
pub fn advance_priced(
    unit: &[u8],
    frame: &mut [u64],
    tariff: &[u16],
    from: usize,
    steps: u32,
) -> PricedProgress
    requires laid { is_unit unit.now ≡ true }
    requires runnable { Runnable (given_function unit.now) }
    requires frame { length frame.old ≡ (sections_of unit.now).locals }
    requires tariff { length tariff.now ≡ prices }
    ensures reached { priced.Placed (priced.advanced (sections_of unit.now) (cells_of unit.now)
        tariff.now steps from 0 frame.old)
        result.place result.left result.spent frame.new }
{
    let code = section::code(unit);
    let constants = section::constants(unit);
    let n = code.len() / size::INSTRUCTION;
    let mut p = from;
    let mut left = steps;
    let mut spent: u64 = 0;
    // No range: a step may go anywhere, and the steps that are left are part of the answer.
    while (left > 0) & (p < n) {
        let q = execute(code, constants, frame, p);
        if q >= NOWHERE {
            return PricedProgress {
                place: p,
                left,
                spent,
            };
        }
        let price = price_at(code, tariff, p);
        spent += price;
        p = q as usize;
        left -= 1;
    }
    PricedProgress {
        place: p,
        left,
        spent,
    }
}

// Goes on from a place while steps are left and there is somewhere to go: by the same loop, free of charge.
pub fn advance(unit: &[u8], frame: &mut [u64], from: usize, steps: u32) -> Progress
    requires laid { is_unit unit.now ≡ true }
    requires runnable { Runnable (given_function unit.now) }
    requires frame { length frame.old ≡ (sections_of unit.now).locals }
    ensures reached { Placed (advanced (sections_of unit.now) (cells_of unit.now)
        steps from frame.old) result.place result.left frame.new }
{
    let reached = advance_priced(unit, frame, &FREE, from, steps);
    Progress {
        place: reached.place,
        left: reached.left,
    }
}

// How a run stops at a place that it does not go on from, with so many steps left: the end of the code and another
// instruction come before the limit.
pub fn stop_at(unit: &[u8], p: usize, left: u32) -> Stop
    requires laid { is_unit unit.now ≡ true }
    ensures answer { (f : List ℕ)
        → result ≡ stop_at (sections_of unit.now) (cells_of unit.now) left p f }
{
    let code = section::code(unit);
    if p >= code.len() / size::INSTRUCTION {
        return Stop::Ended;
    }
    if !is_executed(code, section::constants(unit), p) {
        return Stop::Other(p as u32);
    }
    if left == 0 {
        return Stop::Limit;
    }
    let i = instruction::read(code, p);
    match i.class() {
        Class::Return => Stop::Returned(i.a as u32, i.b as u32),
        Class::Panic => Stop::Panicked(i.a as u32, 2),
        _ => Stop::Limit,
    }
}

// The price of the step by which a run stops at place p: of Return and Panic. A refusal has none.
pub fn stop_price(unit: &[u8], tariff: &[u16], p: usize, stop: Result<Stop, Refusal>) -> u64
    requires laid { is_unit unit.now ≡ true }
    requires tariff { length tariff.now ≡ prices }
    requires place { 0 < stop_price 1 stop → p < length (cells_of unit.now) }
    ensures price { result ≡ stop_price (price_at tariff.now (cells_of unit.now) p) stop }
{
    let code = section::code(unit);
    match stop {
        Ok(Stop::Returned(_, _)) => price_at(code, tariff, p),
        Ok(Stop::Panicked(_, _)) => price_at(code, tariff, p),
        Ok(Stop::Ended) => 0,
        Ok(Stop::Other(_)) => 0,
        Ok(Stop::Limit) => 0,
        Err(_) => 0,
    }
}
