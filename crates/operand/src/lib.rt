// An operand for a wanted outcome: the smallest right word for which an integer binary opcode gives a wanted word.
#![tactic(auto)]

ghost use Rattle.std.specs.Prelude.{◌≡◌, true};
ghost use Rattle.words.specs.Lists.{is_in};
ghost use Rattle.values.specs.Fold.{fold_word, folding_binary};
ghost use Rattle.operand.specs.Operand.{RightOperand};
ghost use Rattle.operand.specs.laws.Candidate.{Candidate};

use instruction::opcode;
use values::fold;

pub mod comparison;
pub mod product;

// The opcode is none of the 17.
#[derive(Clone, Copy, Debug, Drop)]
pub struct NotCovered;

// A candidate is the smallest right word, unless no word does it: the fold itself tells.
fn tested(op: u8, left: u64, wanted: u64, c: u64) -> Option<u64>
    ensures { is_in op folding_binary ≡ true → Candidate (fold_word op 0 left) wanted c → RightOperand op left wanted (Ok result) }
{
    if fold::fold_word(op, 0, left, c) == wanted {
        Some(c)
    } else {
        None
    }
}

// The smallest right word, or that no word does it. AddI, SubI, MulI, the ten comparisons EqI to GeU, And, Or, Xor, AndNot. Each comparison and its opposite have one candidate, turned
// round.
pub fn smallest(op: u8, left: u64, wanted: u64) -> Result<Option<u64>, NotCovered>
    ensures { RightOperand op left wanted result }
{
    let holds = wanted == 1;
    match op {
        opcode::ADD_I => Ok(tested(op, left, wanted, wanted.wrapping_sub(left))),
        opcode::SUB_I => Ok(tested(op, left, wanted, left.wrapping_sub(wanted))),
        opcode::MUL_I => Ok(product::factor(left, wanted)),
        opcode::EQ_I => Ok(tested(op, left, wanted, comparison::equal(left, holds))),
        opcode::NE_I => Ok(tested(op, left, wanted, comparison::equal(left, !holds))),
        opcode::LT_I => Ok(tested(op, left, wanted, comparison::signed_less(left, holds))),
        opcode::LT_U => Ok(tested(op, left, wanted, comparison::less(left, holds))),
        opcode::LE_I => Ok(tested(op, left, wanted, comparison::signed_greater(left, !holds))),
        opcode::LE_U => Ok(tested(op, left, wanted, comparison::at_most(left, holds))),
        opcode::GT_I => Ok(tested(op, left, wanted, comparison::signed_greater(left, holds))),
        opcode::GT_U => Ok(tested(op, left, wanted, comparison::at_most(left, !holds))),
        opcode::GE_I => Ok(tested(op, left, wanted, comparison::signed_less(left, !holds))),
        opcode::GE_U => Ok(tested(op, left, wanted, comparison::less(left, !holds))),
        opcode::AND => Ok(tested(op, left, wanted, wanted)),
        opcode::OR => Ok(tested(op, left, wanted, wanted.wrapping_sub(left))),
        opcode::XOR => Ok(tested(op, left, wanted, left ^ wanted)),
        opcode::AND_NOT => Ok(tested(op, left, wanted, left.wrapping_sub(wanted))),
        _ => Err(NotCovered),
    }
}
