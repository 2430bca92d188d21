// Stores that nothing reads.
ghost use Rattle.std.specs.Prelude.{◌≡◌, ◌*◌, ◌%◌, ◌<◌, true, length, slice_index_or};
ghost use Rattle.instruction.specs.Class.{class_of, is_pure};
ghost use Rattle.instruction.specs.Instruction.{of_word, class};
ghost use Rattle.effects.specs.laws.Form.{empty_range};
ghost use Rattle.effects.specs.laws.ByClass.{writes_by_class};
ghost use Rattle.use_def.specs.laws.Sets.{range};
ghost use Rattle.use_def.specs.laws.Free.{free_slot, free_range, dead_by, Spans};
ghost use Rattle.effects.specs.laws.Single.{is_single};

use crate::touch;
use effects::{Range, form};
use instruction::{Class, Instruction};
use words::bits;

#[tactic(auto, unfolding(instruction::specs::Class::is_pure))]
fn is_pure(c: Class) -> bool
    ensures { result ≡ is_pure c }
{
    matches!(
        c,
        Class::LoadInt
            | Class::LoadConst
            | Class::Copy
            | Class::CopyN
            | Class::Unary
            | Class::Binary
    )
}

// A slot of type Value or Float that is not live.
fn is_free(types: &[u8], row: &[u64], t: usize) -> bool
    requires { (t < length types.now) × (t < 64 * length row.now) }
    ensures { result ≡ free_slot types.now row.now t }
{
    let k = types[t];
    ((k == 0) | (k == 5)) & !bits::contains(row, t)
}

fn each_free(types: &[u8], row: &[u64], start: usize, count: usize) -> bool
    requires { Spans types.now row.now (range start count) }
    ensures { result ≡ free_range types.now row.now (range start count) }
{
    for k in 0..count {
        if !is_free(types, row, start + k) {
            return false;
        }
    }
    true
}

fn is_range_free(types: &[u8], row: &[u64], r: Range) -> bool
    requires { Spans types.now row.now r }
    ensures { result ≡ free_range types.now row.now r }
{
    let start = r.start;
    let count = r.count;
    if count == 1 {
        return is_free(types, row, start);
    }
    each_free(types, row, start, count)
}

// "dead pure stores (all slots Value or Float, none live; empty CopyN too)", the row being what is live after the instruction.
pub fn is_dead(types: &[u8], row: &[u64], i: Instruction) -> bool
    requires { Spans types.now row.now (slice_index_or (writes_by_class (class i) i) 0 empty_range) }
    ensures { result ≡ dead_by types.now row.now i }
{
    let c = i.class();
    if !is_pure(c) {
        return false;
    }
    is_range_free(types, row, touch::write(c, i))
}

// The same, of the word of a load, a copy or an operator: it writes one slot.
pub fn is_single_dead(types: &[u8], row: &[u64], w: u64) -> bool
    requires { (is_single (class_of (w % 256)) ≡ true) × Spans types.now row.now (slice_index_or (writes_by_class (class (of_word w)) (of_word w)) 0 empty_range) }
    ensures { result ≡ dead_by types.now row.now (of_word w) }
{
    is_free(types, row, form::field(w, 0))
}
