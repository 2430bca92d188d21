// Sets of slots: slot t is bit t % 64 of word t / 64.
ghost use Rattle.std.specs.Prelude.{◌≡◌, ℕ, ◌+◌, ◌-◌, ◌*◌, ◌^◌, ◌<◌, ◌≤◌, Bool, true, ◌&&◌, ◌||◌, length, if◌then◌else◌, ◌==◌, bit_and, bit_or, nat_eq};
ghost use mir.Val.{bool_byte};
ghost use borrow.Rule.Slice.PartMut.{mid_of};
ghost use Rattle.words.specs.laws.Bits.{member};
ghost use Rattle.effects.specs.Effects.{range_has, range_within};
ghost use Rattle.use_def.specs.laws.Sets.{Put, range};
ghost use Rattle.use_def.specs.laws.Wordwise.{all_bits, Moved};
ghost use Rattle.words.specs.laws.Only.{At, Only};

use effects::Range;
use words::bits;

// Puts a slot in, or takes it out.
pub fn put(row: &mut [u64], t: usize, on: bool)
    requires { t < 64 * length row.old }
    ensures { Put on (λ k. nat_eq k t) row.old row.new }
{
    if on {
        bits::insert(row, t);
    } else {
        bits::remove(row, t);
    }
}

// The word x with the bits of m put in, or taken out.
fn masked(x: u64, m: u64, on: bool) -> u64
    ensures { result ≡ (if on then bit_or x m else bit_and x (2 ^ 64 - 1 - m)) }
{
    if on { x | m } else { x & !m }
}

// The index, or 0.
pub fn index_if(t: usize, when: bool) -> usize
    ensures { result ≡ (if when then t else 0) }
{
    if when { t } else { 0 }
}

// Puts a slot in, or takes it out, if it is to be done. This takes no branch: if not, the first word is written as it was.
pub fn put_if(row: &mut [u64], t: usize, when: bool, on: bool)
    requires { (0 < length row.old) × (when ≡ true → t < 64 * length row.old) }
    ensures { Put on (λ k. when && k == t) row.old row.new }
{
    let at = index_if(t, when);
    let bit: u64 = when as u64;
    let k = at / 64;
    let x = row[k];
    row[k] = masked(x, bit << (at % 64), on);
}

// The slots of a range one after another.
fn put_each(row: &mut [u64], start: usize, count: usize, on: bool)
    requires { (length row.old ≤ 1024) × (range_within (64 * length row.old) (range start count) ≡ true) }
    ensures { Put on (λ t. range_has t (range start count)) row.old row.new }
{
    for k in 0..count {
        put(row, start + k, on);
    }
}

// The slots of a range; most ranges are of one slot.
pub fn put_range(row: &mut [u64], r: Range, on: bool)
    requires { (length row.old ≤ 1024) × (range_within (64 * length row.old) r ≡ true) }
    ensures { Put on (λ t. range_has t r) row.old row.new }
{
    let start = r.start;
    let count = r.count;
    if count == 1 {
        put(row, start, on);
    } else {
        put_each(row, start, count, on);
    }
}

// All bits, or none.
pub fn mask(bit: u64) -> u64
    requires { bit < 2 }
    ensures { (when : Bool) → bit ≡ bool_byte when → result ≡ all_bits when }
{
    0u64.wrapping_sub(bit)
}

// The set at a becomes the bits of f of that at b and the bits of s of that at c, together; all are of w words.
pub fn join(memory: &mut [u64], a: usize, b: usize, f: u64, c: usize, s: u64, w: usize)
    requires { (a + w ≤ b) × (b + w ≤ length memory.old) × (a + w ≤ c) × (c + w ≤ length memory.old) }
    ensures { ((x y : Bool) → f ≡ all_bits x → s ≡ all_bits y → (t : ℕ) → member (mid_of a w memory.new) t ≡ ((x && member (mid_of b w memory.old) t) || (y && member (mid_of c w memory.old) t))) × Only (At a w) memory.old memory.new }
{
    for k in 0..w {
        memory[a + k] = (memory[b + k] & f) | (memory[c + k] & s);
    }
}

// What is live at a block's start, of what is live at its end: the slots that the block uses, and those that it preserves.
// Each set is given by where it starts. The answer is whether the set is another one now.
pub fn transfer(
    memory: &mut [u64],
    live: usize,
    uses: usize,
    preserved: usize,
    out: usize,
    w: usize,
) -> bool
    requires { (uses + w ≤ live) × (preserved + w ≤ live) × (out + w ≤ live) × (live + w ≤ length memory.old) }
    ensures { ((t : ℕ) → member (mid_of live w memory.new) t ≡ (member (mid_of uses w memory.old) t || (member (mid_of out w memory.old) t && member (mid_of preserved w memory.old) t))) × Moved result (mid_of live w memory.old) (mid_of live w memory.new) × Only (At live w) memory.old memory.new }
{
    let mut changes: u64 = 0;
    for k in 0..w {
        let x = memory[live + k];
        let y = memory[uses + k] | (memory[out + k] & memory[preserved + k]);
        memory[live + k] = y;
        changes |= x ^ y;
    }
    changes != 0
}
