// The table of values: what `Values` of the Rust keeps in `HashMap`s, by value numbers. A number below the number of slots is
// that of a slot's value at the block's start; then there is one for each place, one for Integer 0, and one for each constant.
// The memory has the epoch and the numbers of constants and of expressions, a word for each slot (its value's number), two words for
// each number (the bounds of the slots that hold it, for each of the two groups of types), and two tables of entries. `region`
// says where they stand.
ghost use Rattle.std.specs.Prelude.{◌≡◌, ℕ, ◌+◌, ◌-◌, ◌*◌, ◌<◌, ◌≤◌, Bool, true, false, None, length, slice_index};
ghost use Rattle.values.specs.laws.Entries.{key, bucket_of, head_at};
ghost use Rattle.values.specs.laws.Folded.{integer_of};
ghost use Rattle.values.specs.laws.Memory.{slots_at, memory_of, number_at, bounds_at, bounds_of, first_of, end_of, alike, Lowest, expression_at, expression_key, integer_at, limit, Ready};
ghost use Rattle.values.specs.laws.Promises.{Puts, Clears, Represents, Stores, Shares, Interns, Learns};

use crate::{Atom, entries, region};

// Nothing is known any more: what the words of slots, bounds and heads say is of an earlier epoch.
pub fn clear(t: &mut [u64], n: usize, locals: usize)
    requires { Ready n locals t.old × ((memory_of n locals t.old).epoch < 4294967295) }
    ensures { Clears n locals t.old t.new }
{
    t[region::EPOCH] += 1;
    t[region::CONSTANT_COUNT] = 0;
    t[region::EXPRESSION_COUNT] = 0;
}

// The number of a slot's value.
pub fn number(t: &[u64], n: usize, locals: usize, s: u16) -> u64
    requires { Ready n locals t.now × (s < locals) }
    ensures { (result ≡ number_at (memory_of n locals t.now) s) × (result < limit n locals (memory_of n locals t.now)) }
{
    let w = t[region::SLOTS_AT + (s as usize)];
    if w / 4294967296 == t[region::EPOCH] {
        return w % 4294967296;
    }
    s as u64
}

// Where the bounds of number d stand, for the group that the type `kind` is of.
fn bounds_place(locals: usize, d: u64, kind: u8) -> usize
    requires { (locals ≤ 65536) × (d < 16777216) }
    ensures { result ≡ bounds_at locals + bounds_of d kind }
{
    region::bounds_at(locals) + (2 * (d as usize) + ((kind % 2) as usize))
}

// The slots that hold number d lie from `first_of` on and before `end_of`, by the word of their bounds.
fn first_of(epoch: u64, word: u64, d: u64) -> u64
    ensures { result ≡ first_of epoch word d }
{
    if word / 4294967296 == epoch {
        return word / 65536 % 65536;
    }
    d
}

fn end_of(locals: u64, epoch: u64, word: u64, d: u64) -> u64
    requires { locals ≤ 65536 }
    ensures { result ≡ end_of locals epoch word d }
{
    if word / 4294967296 == epoch {
        return word % 65536 + 1;
    }
    if d < locals {
        return d + 1;
    }
    0
}

// The same type, or only the same group?
fn are_alike(exact: bool, x: u8, y: u8) -> bool
    ensures { result ≡ alike exact x y }
{
    if exact {
        return x == y;
    }
    x % 2 == y % 2
}

// The lowest slot from `from` on and below `to` that holds number d and has a type like `kind`; where there is none, a number that is
// not below `to`.
fn lowest(
    t: &[u64],
    types: &[u8],
    n: usize,
    d: u64,
    kind: u8,
    exact: bool,
    from: usize,
    to: usize,
) -> usize
    requires { Ready n (length types.now) t.now × (to ≤ length types.now) }
    ensures { Lowest types.now (memory_of n (length types.now) t.now) d kind exact from to result }
{
    for r in from..to {
        if (number(t, n, types.len(), r as u16) == d) & are_alike(exact, types[r], kind) {
            return r;
        }
    }
    from.max(to)
}

// The same of the very type, where slot `from` is known to hold number d: mostly it has that type.
fn lowest_typed(
    t: &[u64],
    types: &[u8],
    n: usize,
    d: u64,
    kind: u8,
    from: usize,
    to: usize,
) -> usize
    requires { Ready n (length types.now) t.now × (to ≤ length types.now) × (from < length types.now) × (number_at (memory_of n (length types.now) t.now) from ≡ d) }
    ensures { Lowest types.now (memory_of n (length types.now) t.now) d kind true from to result }
{
    if types[from] == kind {
        return from;
    }
    lowest(t, types, n, d, kind, true, from, to)
}

// "Operands .. become" the lowest slot of their type that holds the value: the slot that stands for slot s, whose value has the
// number d. A slot of the group that holds the number is looked for from the bounds' first slot on, at the latest slot s itself; from it
// on, one of the very type. The former becomes the bounds' first slot.
pub fn representative(t: &mut [u64], types: &[u8], n: usize, s: u16, d: u64) -> u16
    requires { Ready n (length types.now) t.old × (s < length types.now) × (d ≡ number_at (memory_of n (length types.now) t.old) s) }
    ensures { Represents n (length types.now) types.now t.old s d result t.new }
{
    let slot = s as usize;
    let kind = types[slot];
    let at = bounds_place(types.len(), d, kind);
    let word = t[at];
    let from = (first_of(t[region::EPOCH], word, s as u64) as usize).min(slot);
    let near = lowest(&t[..], types, n, d, kind, false, from, slot);
    t[at] = word + 65536 * ((near - from) as u64);
    lowest_typed(&t[..], types, n, d, kind, near, slot) as u16
}

// Slot s holds number d, and the bounds at `at` reach from `first` and slot s to slot s and the one before `end`.
fn put(t: &mut [u64], s: usize, d: u64, at: usize, first: usize, end: usize)
    requires { (s < 65536) × (d < 4294967296) × (at < length t.old) × (slots_at + s < length t.old) × (end ≤ 65536) × (slice_index t.old 0 < 4294967296) }
    ensures { Puts t.old s d at first end t.new }
{
    let epoch = t[region::EPOCH];
    let low = first.min(s);
    let high = end.max(s + 1) - 1;
    t[at] = 4294967296 * epoch + 65536 * (low as u64) + (high as u64);
    t[region::SLOTS_AT + s] = 4294967296 * epoch + d;
}

// A store: the value with the number d in slot s.
pub fn store(t: &mut [u64], types: &[u8], n: usize, s: u16, d: u64)
    requires { Ready n (length types.now) t.old × (s < length types.now) × (d < limit n (length types.now) (memory_of n (length types.now) t.old)) }
    ensures { Stores n (length types.now) types.now t.old s d t.new }
{
    let slot = s as usize;
    let at = bounds_place(types.len(), d, types[slot]);
    let word = t[at];
    let first = first_of(t[region::EPOCH], word, d) as usize;
    let end = end_of(types.len() as u64, t[region::EPOCH], word, d) as usize;
    put(t, slot, d, at, first, end);
}

// A store, and the lowest slot of the type of slot s that held the value before it, if there is one.
pub fn share(t: &mut [u64], types: &[u8], n: usize, s: u16, d: u64) -> Option<u16>
    requires { Ready n (length types.now) t.old × (s < length types.now) × (d < limit n (length types.now) (memory_of n (length types.now) t.old)) }
    ensures { Shares n (length types.now) types.now t.old s d result t.new }
{
    let slot = s as usize;
    let kind = types[slot];
    let at = bounds_place(types.len(), d, kind);
    let word = t[at];
    let first = first_of(t[region::EPOCH], word, d) as usize;
    let end = end_of(types.len() as u64, t[region::EPOCH], word, d) as usize;
    let near = lowest(&t[..], types, n, d, kind, false, first, end);
    if end <= near {
        put(t, slot, d, at, slot, 0);
        return None;
    }
    let r = lowest_typed(&t[..], types, n, d, kind, near, end);
    put(t, slot, d, at, near, end);
    if r < end {
        return Some(r as u16);
    }
    None
}

// The value with a number, as far as folding asks, which is whether it is an integer and which: what it is otherwise, a definition's
// place and slot and a float's bits, is free.
pub fn atom(t: &[u64], n: usize, locals: usize, d: u64) -> Atom
    requires { Ready n locals t.now × (d < limit n locals (memory_of n locals t.now)) }
    ensures { integer_of result ≡ integer_at n locals (memory_of n locals t.now).constant_table d }
{
    let zero = locals + n;
    let number = d as usize;
    if number < zero {
        return Atom::Definition(0, 0);
    }
    if number == zero {
        return Atom::Integer(0);
    }
    let at = region::constants_at(n, locals) + n + 4 * (number - zero - 1);
    if t[at + 1] == 0 {
        return Atom::Integer(t[at]);
    }
    Atom::Float(t[at])
}

// The number of a constant, by its kind, 0 of an integer and 1 of a float, and its bits: a new one where it has none. Kind and bits
// are the two words of its key in lent memory, so that the kind is a number.
pub fn constant(t: &mut [u64], n: usize, locals: usize, kind: u64, bits: u64) -> u64
    requires { Ready n locals t.old × ((memory_of n locals t.old).constants < n) × (kind ≤ 1) }
    ensures { Interns n locals t.old kind bits result t.new }
{
    let zero = locals + n;
    if (kind == 0) & (bits == 0) {
        return zero as u64;
    }
    let start = region::constants_at(n, locals);
    let end = region::expressions_at(n, locals);
    let epoch = t[region::EPOCH];
    let count = t[region::CONSTANT_COUNT] as usize;
    let b = entries::bucket(n, bits, kind);
    let first = entries::head(&t[start..end], epoch, b);
    let f = entries::find(&t[start..end], n, count, first, bits, kind);
    if f > 0 {
        return (zero + f) as u64;
    }
    entries::insert(&mut t[start..end], n, epoch, count, b, first, bits, kind, 0);
    t[region::CONSTANT_COUNT] = (count + 1) as u64;
    (zero + 1 + count) as u64
}

// The head of a bucket of expressions: `find_expression` and `learn` take it, so that it is read once.
pub fn first_expression(t: &[u64], n: usize, locals: usize, b: usize) -> u64
    requires { Ready n locals t.now × (b < n) }
    ensures { result ≡ head_at (memory_of n locals t.now).expression_table (memory_of n locals t.now).epoch b }
{
    let start = region::expressions_at(n, locals);
    let end = region::end_at(n, locals);
    entries::head(&t[start..end], t[region::EPOCH], b)
}

// The number of an equal expression's value, by its key and the head of its bucket.
pub fn find_expression(t: &[u64], n: usize, locals: usize, first: u64, word: u64) -> Option<u64>
    requires { Ready n locals t.now × (first ≡ head_at (memory_of n locals t.now).expression_table (memory_of n locals t.now).epoch (bucket_of n (key word 0))) }
    ensures { result ≡ expression_at n locals (memory_of n locals t.now) (key word 0) }
{
    let start = region::expressions_at(n, locals);
    let end = region::end_at(n, locals);
    let count = t[region::EXPRESSION_COUNT] as usize;
    let f = entries::find(&t[start..end], n, count, first, word, 0);
    if f == 0 {
        return None;
    }
    let at = start + n + 4 * (f - 1) + 2;
    Some(t[at])
}

// One expression more, which is not there yet: its value has the number d.
pub fn learn(t: &mut [u64], n: usize, locals: usize, b: usize, first: u64, word: u64, d: u64)
    requires { Ready n locals t.old × ((memory_of n locals t.old).expressions < n) × (b ≡ bucket_of n (key word 0)) × (b < n) × (first ≡ head_at (memory_of n locals t.old).expression_table (memory_of n locals t.old).epoch b) × (d < limit n locals (memory_of n locals t.old)) × (expression_at n locals (memory_of n locals t.old) (key word 0) ≡ None) }
    ensures { (op flags left right : ℕ) → op < 256 → flags < 256 → left < limit n locals (memory_of n locals t.old) → right < limit n locals (memory_of n locals t.old) → key word 0 ≡ expression_key op flags left right → Learns n locals t.old op flags left right d t.new }
{
    let start = region::expressions_at(n, locals);
    let end = region::end_at(n, locals);
    let epoch = t[region::EPOCH];
    let count = t[region::EXPRESSION_COUNT] as usize;
    entries::insert(&mut t[start..end], n, epoch, count, b, first, word, 0, d);
    t[region::EXPRESSION_COUNT] = (count + 1) as u64;
}
