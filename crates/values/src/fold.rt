// Folding: the words that integer opcodes give, and the known integer that an expression folds to.
ghost use Rattle.std.specs.Prelude.{◌≡◌, ◌%◌, ◌^◌, ◌<◌, ◌≤◌};
ghost use Rattle.words.specs.Lists.{is_in};
ghost use Rattle.values.specs.Fold.{bool, low_bits, trunc, bit_word, folding_unary, folding_binary, fold_word, fits_imm32};
ghost use Rattle.values.specs.Number.{fold_unary, fold_binary};
ghost use Rattle.values.specs.laws.Folded.{expression_of};
ghost use Rattle.values.specs.declared.Atom.{Atom};

use crate::Atom;
use instruction::opcode;
use words::word;

// "comparisons and BoolNot give 1 or 0"
fn word_of(t: bool) -> u64
    ensures { result ≡ bool t }
{
    u64::from(t)
}

// The low bits of a word, or the word with their signed reading.
fn low_bits<const BITS: u32>(flags: u8, x: u64) -> u64
    requires some { 1 ≤ BITS }
    requires narrow { BITS < 64 }
    ensures { result ≡ low_bits BITS flags x }
{
    let low = x % (1 << BITS);
    if 128 <= flags {
        return word::sign_extend::<BITS>(low);
    }
    low
}

// "Trunc keeps the low 1, 2 or 4 bytes by flags modulo 128 (otherwise the whole word)"
fn truncate(flags: u8, x: u64) -> u64
    ensures { result ≡ trunc flags x }
{
    match flags % 128 {
        1 => low_bits::<8>(flags, x),
        2 => low_bits::<16>(flags, x),
        4 => low_bits::<32>(flags, x),
        _ => x,
    }
}

// And, Or, Xor, AndNot, Not, BoolNot, Trunc.
fn bit_word(op: u8, flags: u8, x: u64, y: u64) -> u64
    ensures { result ≡ bit_word op flags x y }
{
    match op {
        opcode::AND => x & y,
        opcode::OR => x | y,
        opcode::XOR => x ^ y,
        opcode::AND_NOT => x & !y,
        opcode::NOT => !x,
        opcode::BOOL_NOT => word_of(x == 0),
        _ => truncate(flags, x),
    }
}

// The word that a folding opcode gives: AddI, SubI, MulI, NegI, the ten comparisons EqI to GeU, and the bitwise ones.
pub fn fold_word(op: u8, flags: u8, x: u64, y: u64) -> u64
    ensures { result ≡ fold_word op flags x y }
{
    match op {
        opcode::ADD_I => x.wrapping_add(y),
        opcode::SUB_I => x.wrapping_sub(y),
        opcode::MUL_I => word::wrapping_mul(x, y),
        opcode::NEG_I => word::wrapping_neg(x),
        opcode::EQ_I => word_of(x == y),
        opcode::NE_I => word_of(x != y),
        opcode::LT_I => word_of(word::signed_less(x, y)),
        opcode::LT_U => word_of(x < y),
        opcode::LE_I => word_of(!word::signed_less(y, x)),
        opcode::LE_U => word_of(x <= y),
        opcode::GT_I => word_of(word::signed_less(y, x)),
        opcode::GT_U => word_of(y < x),
        opcode::GE_I => word_of(!word::signed_less(x, y)),
        opcode::GE_U => word_of(y <= x),
        _ => bit_word(op, flags, x, y),
    }
}

// "its signed reading fits 32 bits"
#[tactic(auto, unfolding(crate::specs::Fold::fits_imm32))]
pub fn fits_imm32(v: u64) -> bool
    ensures { result ≡ fits_imm32 v }
{
    v < 2147483648 || 18446744071562067968 <= v
}

// NegI, Not, BoolNot, Trunc.
pub fn folds_unary(op: u8) -> bool
    ensures { result ≡ is_in op folding_unary }
{
    matches!(
        op,
        opcode::NEG_I | opcode::NOT | opcode::BOOL_NOT | opcode::TRUNC
    )
}

// AddI to MulI, EqI to GeU, And to AndNot.
pub fn folds_binary(op: u8) -> bool
    ensures { result ≡ is_in op folding_binary }
{
    matches!(
        op,
        opcode::ADD_I..=opcode::MUL_I
            | opcode::EQ_I..=opcode::GE_U
            | opcode::AND..=opcode::AND_NOT
    )
}

// "A slot either holds a known integer or the rule goes no further."
#[tactic(auto, unfolding(crate::specs::Number::fold_unary))]
pub fn fold_unary(op: u8, flags: u8, left: Atom) -> Option<u64>
    ensures { (right : Atom) → result ≡ fold_unary (expression_of op flags left right) left }
{
    let Atom::Integer(x) = left else {
        return None;
    };
    if folds_unary(op) {
        return Some(fold_word(op, flags, x, 0));
    }
    None
}

#[tactic(auto, unfolding(crate::specs::Number::fold_binary))]
pub fn fold_binary(op: u8, flags: u8, left: Atom, right: Atom) -> Option<u64>
    ensures { result ≡ fold_binary (expression_of op flags left right) left right }
{
    let Atom::Integer(x) = left else {
        return None;
    };
    let Atom::Integer(y) = right else {
        return None;
    };
    if folds_binary(op) {
        return Some(fold_word(op, flags, x, y));
    }
    None
}
