// Branches and their targets.
ghost use Rattle.std.specs.Prelude.{◌≡◌, ℕ, ◌^◌, ◌<◌, true, List, length, if◌then◌else◌};
ghost use Rattle.unit.specs.Refusal.{branch_outside, test_number};
ghost use Rattle.effects.specs.laws.Cells.{cells_by};
ghost use mir.Val.{bool_byte};
ghost use Rattle.instruction.specs.Class.{class_of};
ghost use Rattle.instruction.specs.Instruction.{class, imm32, for_loop_distance};
ghost use Rattle.flow.specs.Branch.{falls, branches, target, branch_inside, branch_check};
ghost use Rattle.flow.specs.Block.{ends_block};
ghost use Rattle.flow.specs.laws.Control.{Controls};

use effects::branching;
use instruction::{Class, Instruction, opcode};
use unit::refusal::{Reason, Refusal};

// Sets of classes, as bits by their places in `Class`: all but Jump, Return, Panic and Invalid go on to the next place.
const FALLING: u64 = (1 << Class::Invalid as u64)
    - 1
    - (1 << Class::Jump as u64)
    - (1 << Class::Return as u64)
    - (1 << Class::Panic as u64);

const BRANCHES: u64 = (1 << Class::Jump as u64)
    | (1 << Class::JumpIf as u64)
    | (1 << Class::JumpIfNot as u64)
    | (1 << Class::ForLoop as u64);

// Does a block end after an instruction of that opcode? Most end none, and the number tells it fastest: Jump, JumpIf, JumpIfNot,
// Return, Panic and ForLoop do.
pub fn ends_block(op: u8) -> bool
    ensures { result ≡ ends_block (class_of op) }
{
    matches!(
        op,
        opcode::JUMP
            | opcode::JUMP_IF
            | opcode::JUMP_IF_NOT
            | opcode::RETURN
            | opcode::PANIC
            | opcode::FOR_LOOP
    )
}

// 1 if the next step may be at the next place, by its class: a bit of a constant, so that the processor has no branch to predict.
pub fn falls(c: Class) -> u64
    ensures { result ≡ bool_byte (falls c) }
{
    (FALLING >> c as u64) % 2
}

// 1 if it may be at a branch's target.
pub fn branches(c: Class) -> u64
    ensures { result ≡ bool_byte (branches c) }
{
    (BRANCHES >> c as u64) % 2
}

// The distance of a branch from its place, or of ForLoop from the next place.
fn distance(i: Instruction, looped: bool) -> u64
    ensures { result ≡ (if looped then for_loop_distance i else imm32 i) }
{
    let near = i.for_loop_distance();
    let far = i.imm32();
    if looped { near } else { far }
}

// The target of a branch at place p, by its class; of what is no branch the answer is free.
pub fn branch_target(p: usize, i: Instruction, c: Class) -> u64
    requires { (p < 2 ^ 32) × (c ≡ class i) }
    ensures { branches (class i) ≡ true → result ≡ target p i }
{
    let looped = branching::is_loop(c);
    let from = (p as u64) + (looped as u64);
    from.wrapping_add(distance(i, looped))
}

// Of what is no branch, the next place.
pub fn target(p: usize, i: Instruction) -> u64
    requires { p < 2 ^ 32 }
    ensures { result ≡ target p i }
{
    let class = i.class();
    if branches(class) == 1 {
        return branch_target(p, i, class);
    }
    p as u64 + 1
}

// Why the instruction at place p is refused: a branch may go to the places below n, whatever n is.
pub fn branch_refusal(n: usize, p: usize, i: Instruction) -> Option<Reason>
    requires place { p < 2 ^ 32 }
    ensures refusal { test_number result ≡ (if branch_inside n p i then 0 else branch_outside) }
{
    if !ends_block(i.op) {
        return None;
    }
    let class = i.class();
    if branches(class) == 1 {
        if branch_target(p, i, class) >= n as u64 {
            return Some(Reason::BranchOutside);
        }
    }
    None
}

// Refusal 8, by the list of the control places. The metadata of the cells plays no part.
pub fn check_branches(words: &[u64], list: &[u64]) -> Result<(), Refusal>
    requires { (length words.now < 2 ^ 32) × Controls words.now list.now (length words.now) }
    ensures { (metadata : List ℕ) → result ≡ branch_check (cells_by words.now metadata) }
{
    let n = words.len();
    for place in list {
        let p = *place as usize;
        if let Some(reason) = branch_refusal(n, p, Instruction::from_word(words[p])) {
            return Err(reason.at(p as u32));
        }
    }
    Ok(())
}
