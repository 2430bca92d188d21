// The refusals at the desk: 1, 11, 13, 3, 4, 5 to 7, 8 and 12, of any bytes and a frame of any length.
ghost use Rattle.std.specs.Prelude.{◌≡◌, ℕ, suc, true, length};
ghost use Rattle.unit.specs.Layout.{header_of, is_unit};
ghost use Rattle.effects.specs.Check.{operand_check};
ghost use Rattle.effects.specs.Check.{Passed};
ghost use Rattle.flow.specs.Branch.{branch_check_in};
ghost use Rattle.answer.specs.Answer.{cells_of, sections_of, count_check};
ghost use Rattle.desk.specs.Answer.{frame_check, desk_check};
ghost use Rattle.desk.specs.Charge.{tariff_check, charge_check};

use crate::PRICES;
use admit::check_counts;
use effects::{Tables, operands};
use flow::branch;
use unit::refusal::{Reason, Refusal};
use unit::{section, size};

// Refusals 5, 6 and 7.
fn check_operands(unit: &[u8]) -> Result<(), Refusal>
    requires laid { is_unit unit.now ≡ true }
    requires counted { count_check (header_of unit.now).counts ≡ Passed }
    ensures answer { result ≡ operand_check (sections_of unit.now).locals
        (sections_of unit.now).tables (cells_of unit.now) }
{
    let code = section::code(unit);
    let metadata = section::metadata(unit);
    let locals = section::types(unit).len();
    let tables = Tables::of_unit(unit);
    let n = code.len() / size::INSTRUCTION;
    for p in 0..n {
        let w = instruction::read(code, p).word();
        let refused = operands::operand_refusal(locals, w, metadata, p, &tables);
        if let Some(reason) = refused {
            return Err(reason.at(p as u32));
        }
    }
    Ok(())
}

// Refusal 8, where a branch may go to the end of the code too.
fn check_branches(unit: &[u8]) -> Result<(), Refusal>
    requires laid { is_unit unit.now ≡ true }
    ensures answer { result ≡ branch_check_in (suc (length (cells_of unit.now)))
        (cells_of unit.now) }
{
    let code = section::code(unit);
    let n = code.len() / size::INSTRUCTION;
    for p in 0..n {
        if let Some(reason) = branch::branch_refusal(n + 1, p, instruction::read(code, p)) {
            return Err(reason.at(p as u32));
        }
    }
    Ok(())
}

// Refusal 12.
fn check_frame(locals: usize, words: usize) -> Result<(), Refusal>
    ensures answer { result ≡ frame_check locals words }
{
    if words != locals {
        return Err(Reason::FrameLength.at(0));
    }
    Ok(())
}

// All of them, where the frame has so many words.
pub fn check(unit: &[u8], words: usize) -> Result<(), Refusal>
    ensures answer { result ≡ desk_check unit.now words }
{
    let h = parse::check(unit)?;
    let c = h.counts;
    check_counts(c)?;
    check_operands(unit)?;
    check_branches(unit)?;
    check_frame(c.locals, words)
}

// Refusal 15.
fn check_tariff(count: usize) -> Result<(), Refusal>
    ensures answer { result ≡ tariff_check count }
{
    if count != PRICES {
        return Err(Reason::TariffLength.at(0));
    }
    Ok(())
}

// All of them and 15 behind them, where the tariff has so many prices.
pub fn check_charge(unit: &[u8], words: usize, count: usize) -> Result<(), Refusal>
    ensures answer { result ≡ charge_check unit.now words count }
{
    check(unit, words)?;
    check_tariff(count)
}
