// The walk over the function: each instruction rewritten by the values known before it.
ghost use Rattle.std.specs.Prelude.{◌≡◌, true, false, Some, None, List, map, ℕ, ◌+◌, ◌≤◌, ◌<◌, length};
ghost use borrow.Rule.Slice.PartMut.{mid_of};
ghost use Rattle.instruction.specs.Instruction.{class, of_word, to_word};
ghost use Rattle.effects.specs.Shape.{Cell, Tables};
ghost use Rattle.effects.specs.laws.Cells.{cells_by};
ghost use Rattle.values.specs.Values.{value_of, learn};
ghost use Rattle.values.specs.Fold.{fits_imm32};
ghost use Rattle.values.specs.Number.{copied, constant_atom, stored as storedBy, number_copy, number_constant, number_read, number_jump, number_by, number, number_code};
ghost use Rattle.values.specs.laws.Folded.{expression_of};
ghost use Rattle.values.specs.laws.Memory.{memory_of, key_atom, constant_key, expression_key, limit, expression_at, atom_in, end_at, Ready};
ghost use Rattle.values.specs.laws.Entries.{key, bucket_of, head_at};
ghost use Rattle.values.specs.laws.Promises.{Clears};
ghost use Rattle.numbering.specs.laws.Walk.{load_of, Stands, Becomes, Room, Coded, Known, Valued, Second, second_number, fold_by, binary_class, operator_class, on_zero, atom_of, KindOf, operated, scalar_in, pure_by, undecided_by, takes, other_by, sections_with, Begins, Enters, Turns, Numberable, limit_at, expression_with};
ghost use Rattle.values.specs.laws.Named.{Named};
ghost use Rattle.instruction.specs.declared.Class.TheVariants.{Return};
ghost use Rattle.values.specs.declared.Atom.TheVariants.{Definition};

use instruction::{Class, Instruction, opcode};
use unit::Constant;
use values::{Atom, entries, fold, region, table};

// LoadInt of a word that fits 32 bits.
fn load(i: Instruction, v: u64) -> Instruction
    ensures { result ≡ load_of i v }
{
    Instruction::new(opcode::LOAD_INT, i.a, 0, 0).with_imm32((v % 4294967296) as u32)
}

// The instruction stays as it is given, and its destination has the value with the number d.
fn store(t: &mut [u64], types: &[u8], n: usize, i: Instruction, d: u64) -> Instruction
    requires { Ready n (length types.now) t.old × (i.a < length types.now) × (d < limit n (length types.now) (memory_of n (length types.now) t.old)) }
    ensures { Becomes n types.now 0 0 0 t.old result t.new (λ dest constants. Unit {0}) (λ dest S x. storedBy S i x (atom_in n (length types.now) dest (memory_of n (length types.now) t.old) d)) }
{
    let a = i.a;
    table::store(t, types, n, a, d);
    i
}

// The same, of a constant.
fn store_constant(
    t: &mut [u64],
    types: &[u8],
    n: usize,
    i: Instruction,
    kind: u64,
    bits: u64,
) -> Instruction
    requires { Room n (length types.now) t.old × (i.a < length types.now) × (kind ≤ 1) }
    ensures { Becomes n types.now 0 1 0 t.old result t.new (λ dest constants. Unit {0}) (λ dest S x. storedBy S i x (key_atom (constant_key kind bits))) }
{
    let d = table::constant(t, n, types.len(), kind, bits);
    store(t, types, n, i, d)
}

// The word of an expression: opcode, flags and the numbers of both values.
fn expression_word(op: u8, flags: u8, left: u64, right: u64) -> u64
    requires { (left < 16777216) × (right < 16777216) }
    ensures { (op < 256) × (flags < 256) × (key result 0 ≡ expression_key op flags left right) }
{
    (op as u64) + 256 * (flags as u64) + 65536 * left + 1099511627776 * right
}

// An equal expression, whose value has the number d: "becomes Copy from" the lowest slot that holds it, "the type being the
// destination's; otherwise it stays"
fn copy_or_stay(t: &mut [u64], types: &[u8], n: usize, i: Instruction, d: u64) -> Instruction
    requires { Ready n (length types.now) t.old × (i.a < length types.now) × (d < limit n (length types.now) (memory_of n (length types.now) t.old)) }
    ensures { Becomes n types.now 0 0 0 t.old result t.new (λ dest constants. Unit {0}) (λ dest S x. storedBy S (copied S i x (atom_in n (length types.now) dest (memory_of n (length types.now) t.old) d)) x (atom_in n (length types.now) dest (memory_of n (length types.now) t.old) d)) }
{
    let a = i.a;
    match table::share(t, types, n, a, d) {
        Some(r) => Instruction::new(opcode::COPY, a, r, 0),
        None => i,
    }
}

// A new expression: its value is what this place defines.
fn define(
    t: &mut [u64],
    types: &[u8],
    n: usize,
    i: Instruction,
    p: u32,
    b: usize,
    first: u64,
    word: u64,
) -> Instruction
    requires { Room n (length types.now) t.old × (i.a < length types.now) × (p < n) × (b ≡ bucket_of n (key word 0)) × (b < n) × (first ≡ head_at (memory_of n (length types.now) t.old).expression_table (memory_of n (length types.now) t.old).epoch b) × Coded n (length types.now) (memory_of n (length types.now) t.old) word × (expression_at n (length types.now) (memory_of n (length types.now) t.old) (key word 0) ≡ None) }
    ensures { (op flags left right : ℕ) → op < 256 → flags < 256 → left < limit_at n types.now t.old → right < limit_at n types.now t.old → key word 0 ≡ expression_key op flags left right → Becomes n types.now 0 0 1 t.old result t.new (λ dest constants. Stands n p i dest) (λ dest S x. storedBy S i (learn x (expression_with n types.now t.old dest op flags left right) (Definition p i.a)) (Definition p i.a)) }
{
    let locals = types.len();
    let d = (locals + (p as usize)) as u64;
    table::learn(t, n, locals, b, first, word, d);
    store(t, types, n, i, d)
}

// The number of a value that is known: that of a folded word, a new one where it has none, or that of an equal expression.
fn known(
    t: &mut [u64],
    n: usize,
    locals: usize,
    folded: Option<u64>,
    first: u64,
    word: u64,
) -> Option<u64>
    requires { Room n locals t.old × (first ≡ head_at (memory_of n locals t.old).expression_table (memory_of n locals t.old).epoch (bucket_of n (key word 0))) }
    ensures { Known n locals t.old word folded result t.new }
{
    match folded {
        Some(v) => Some(table::constant(t, n, locals, 0, v)),
        None => table::find_expression(&t[..], n, locals, first, word),
    }
}

// "An equal expression (opcode, flags, both values)", and document 02, L2: a folded value outside 32 bits; both become "Copy from the
// slot of L1", or stay. One call serves both, since the compiler puts a function that is called once in its place.
fn by_number(
    t: &mut [u64],
    types: &[u8],
    n: usize,
    i: Instruction,
    p: u32,
    left: u64,
    right: u64,
    folded: Option<u64>,
) -> Instruction
    requires { Room n (length types.now) t.old × (i.a < length types.now) × (p < n) × (left < limit n (length types.now) (memory_of n (length types.now) t.old)) × (right < limit n (length types.now) (memory_of n (length types.now) t.old)) × ((v : ℕ) → folded ≡ Some v → fits_imm32 v ≡ false) }
    ensures { Valued n types.now t.old i p left right folded result t.new }
{
    let locals = types.len();
    let word = expression_word(i.op, i.flags, left, right);
    let b = entries::bucket(n, word, 0);
    let first = table::first_expression(&t[..], n, locals, b);
    match known(t, n, locals, folded, first, word) {
        Some(d) => copy_or_stay(t, types, n, i, d),
        None => define(t, types, n, i, p, b, first, word),
    }
}

// "LoadInt if it fits; else Copy from the slot of L1 that holds the same known integer in the same type; else the instruction stays"
fn by_value(
    t: &mut [u64],
    types: &[u8],
    n: usize,
    i: Instruction,
    p: u32,
    left: u64,
    right: u64,
    folded: Option<u64>,
) -> Instruction
    requires { Room n (length types.now) t.old × (i.a < length types.now) × (p < n) × (left < limit n (length types.now) (memory_of n (length types.now) t.old)) × (right < limit n (length types.now) (memory_of n (length types.now) t.old)) }
    ensures { Valued n types.now t.old i p left right folded result t.new }
{
    if let Some(v) = folded {
        if fold::fits_imm32(v) {
            return store_constant(t, types, n, load(i, v), 0, v);
        }
    }
    by_number(t, types, n, i, p, left, right, folded)
}

// The number of the second operand's value; a unary opcode has Integer 0 in its place.
fn second_number(t: &[u64], n: usize, locals: usize, s: u16, binary: bool) -> u64
    requires { Ready n locals t.now × (binary ≡ true → s < locals) }
    ensures { (result ≡ second_number n locals (memory_of n locals t.now) s binary) × (result < limit n locals (memory_of n locals t.now)) }
{
    if binary {
        return table::number(t, n, locals, s);
    }
    (locals + n) as u64
}

// The second operand of a binary opcode; a unary one has none.
fn second(t: &mut [u64], types: &[u8], n: usize, s: u16, d: u64, binary: bool) -> u16
    requires { Ready n (length types.now) t.old × (binary ≡ true → s < length types.now) × (d ≡ second_number n (length types.now) (memory_of n (length types.now) t.old) s binary) }
    ensures { Second n (length types.now) types.now t.old s binary result t.new }
{
    if binary {
        return table::representative(t, types, n, s, d);
    }
    s
}

// What an opcode of one operand or of two folds to. Most operands are definitions, of which nothing folds: one test whether both
// numbers are those of constants, which is seldom so, is predicted better by the processor than a test of each.
fn fold_numbers(
    t: &[u64],
    n: usize,
    locals: usize,
    op: u8,
    flags: u8,
    left: u64,
    right: u64,
    binary: bool,
) -> Option<u64>
    requires { Ready n locals t.now × (left < limit n locals (memory_of n locals t.now)) × (right < limit n locals (memory_of n locals t.now)) }
    ensures { (dest : ℕ → ℕ) → result ≡ fold_by binary (expression_of op flags (atom_in n locals dest (memory_of n locals t.now) left) (atom_in n locals dest (memory_of n locals t.now) right)) }
{
    if binary {
        let zero = (locals + n) as u64;
        if (left < zero) | (right < zero) {
            return None;
        }
        let x = table::atom(t, n, locals, left);
        let y = table::atom(t, n, locals, right);
        return fold::fold_binary(op, flags, x, y);
    }
    fold::fold_unary(op, flags, table::atom(t, n, locals, left))
}

// "Operands of .. unary and binary opcodes (left first)"
fn number_operator(
    t: &mut [u64],
    types: &[u8],
    n: usize,
    i: Instruction,
    p: u32,
    binary: bool,
) -> Instruction
    requires { Room n (length types.now) t.old × (i.b < length types.now) × (binary ≡ true → i.c < length types.now) × (i.a < length types.now) × (p < n) }
    ensures { Becomes n types.now 0 1 1 t.old result t.new (λ dest constants. Stands n p i dest) (λ dest S x. operated S binary p i x) }
{
    let locals = types.len();
    let left = table::number(&t[..], n, locals, i.b);
    let b = table::representative(t, types, n, i.b, left);
    let right = second_number(&t[..], n, locals, i.c, binary);
    let c = second(t, types, n, i.c, right, binary);
    let folded = fold_numbers(&t[..], n, locals, i.op, i.flags, left, right, binary);
    let named = Instruction { b, c, ..i };
    by_value(t, types, n, named, p, left, right, folded)
}

// Copy: its operand's value.
fn number_copy(t: &mut [u64], types: &[u8], n: usize, i: Instruction) -> Instruction
    requires { Room n (length types.now) t.old × (i.b < length types.now) × (i.a < length types.now) }
    ensures { Becomes n types.now 0 0 0 t.old result t.new (λ dest constants. Unit {0}) (λ dest S x. number_copy S i x) }
{
    let d = table::number(&t[..], n, types.len(), i.b);
    let b = table::representative(t, types, n, i.b, d);
    let named = Instruction { b, ..i };
    store(t, types, n, named, d)
}

// The instruction stays, and all values are forgotten.
fn forget(t: &mut [u64], n: usize, locals: usize, i: Instruction) -> Instruction
    requires { Room n locals t.old }
    ensures { (result ≡ i) × Clears n locals t.old t.new }
{
    table::clear(t, n, locals);
    i
}

// The kind and the bits of a constant's value; a String or a missing one has none.
#[tactic(auto, unfolding(values::specs::Number::constant_atom, values::specs::laws::Memory::key_atom))]
fn loaded(constant: Option<Constant>) -> Option<(u64, u64)>
    ensures { (atom_of result ≡ constant_atom constant) × KindOf result }
{
    match constant? {
        Constant::Nil => Some((0, 0)),
        Constant::Bool(v) => Some((0, v)),
        Constant::Int(v) => Some((0, v)),
        Constant::Float(v) => Some((1, v)),
        Constant::String => None,
    }
}

// "LoadConst of a String or a missing constant" clears all values.
fn number_constant(
    t: &mut [u64],
    types: &[u8],
    n: usize,
    i: Instruction,
    constant: Option<Constant>,
) -> Instruction
    requires { Room n (length types.now) t.old × (i.a < length types.now) }
    ensures { Becomes n types.now 1 1 0 t.old result t.new (λ dest constants. Unit {0}) (λ dest S x. number_constant S i x (constant_atom constant)) }
{
    match loaded(constant) {
        Some((kind, bits)) => store_constant(t, types, n, i, kind, bits),
        None => forget(t, n, types.len(), i),
    }
}

// "scalar": a slot of type Value or Float, which are bits 0 and 5 of 33. Two tests would be a branch that the processor cannot
// predict.
fn scalar(types: &[u8], s: u16) -> bool
    ensures { result ≡ scalar_in types.now s }
{
    let at = s as usize;
    if at < types.len() {
        let k = types[at];
        return (k < 6) & ((33u8 >> (k % 8)) % 2 == 1);
    }
    false
}

// Two operands or one?
#[tactic(auto, unfolding(instruction::specs::Class::number_of))]
fn is_binary(k: Class) -> bool
    ensures { result ≡ binary_class k }
{
    matches!(k, Class::Binary)
}

// Of one operand or of two?
#[tactic(auto, unfolding(instruction::specs::Class::number_of))]
fn is_operator(k: Class) -> bool
    ensures { result ≡ operator_class k }
{
    matches!(k, Class::Unary | Class::Binary)
}

// The pure opcodes, of a scalar destination. Most are operators.
fn number_pure(
    t: &mut [u64],
    types: &[u8],
    constants: &[u8],
    n: usize,
    i: Instruction,
    p: u32,
    k: Class,
) -> Instruction
    requires { Room n (length types.now) t.old × Named k (length types.now) i × (p < n) }
    ensures { Becomes n types.now 1 1 1 t.old result t.new (λ dest c. Stands n p i dest × (c ≡ constants.now)) (λ dest S x. pure_by S k p i x) }
{
    if is_operator(k) {
        return number_operator(t, types, n, i, p, is_binary(k));
    }
    match k {
        Class::LoadInt => store_constant(t, types, n, i, 0, i.imm32()),
        Class::LoadConst => {
            let constant = unit::entry::constant(constants, i.b as usize);
            number_constant(t, types, n, i, constant)
        }
        Class::Copy => number_copy(t, types, n, i),
        _ => forget(t, n, types.len(), i),
    }
}

// An operand `a` that is read.
fn number_read(t: &mut [u64], types: &[u8], n: usize, i: Instruction) -> Instruction
    requires { Room n (length types.now) t.old × (i.a < length types.now) }
    ensures { Becomes n types.now 0 0 0 t.old result t.new (λ dest constants. Unit {0}) (λ dest S x. number_read S i x) }
{
    let d = table::number(&t[..], n, types.len(), i.a);
    let a = table::representative(t, types, n, i.a, d);
    Instruction { a, ..i }
}

// "an undecided conditional jump on a scalar"
fn undecided(t: &mut [u64], types: &[u8], n: usize, i: Instruction) -> Instruction
    requires { Room n (length types.now) t.old × (i.a < length types.now) }
    ensures { Becomes n types.now 0 0 0 t.old result t.new (λ dest constants. Unit {0}) (λ dest S x. undecided_by S i x) }
{
    if scalar(types, i.a) {
        return number_read(t, types, n, i);
    }
    i
}

// JumpIfNot takes its branch where the word is 0, JumpIf where it is not.
fn taken(zero: bool, v: u64) -> bool
    ensures { result ≡ takes zero v }
{
    if zero {
        return v == 0;
    }
    v != 0
}

// "JumpIf and JumpIfNot on a known integer become Jump or plain Hint"
fn number_jump(t: &mut [u64], types: &[u8], n: usize, i: Instruction, zero: bool) -> Instruction
    requires { Room n (length types.now) t.old × (i.a < length types.now) }
    ensures { Becomes n types.now 0 0 0 t.old result t.new (λ dest constants. Unit {0}) (λ dest S x. number_jump S (takes zero) i x (value_of x i.a)) }
{
    let locals = types.len();
    let d = table::number(&t[..], n, locals, i.a);
    let value = table::atom(&t[..], n, locals, d);
    let Atom::Integer(v) = value else {
        return undecided(t, types, n, i);
    };
    if taken(zero, v) {
        return Instruction::new(opcode::JUMP, 0, i.b, i.c);
    }
    Instruction::new(opcode::HINT, 0, 0, 0)
}

// "a one-scalar Return"
fn number_return(t: &mut [u64], types: &[u8], n: usize, i: Instruction) -> Instruction
    requires { Room n (length types.now) t.old × (i.b ≡ 1 → i.a < length types.now) }
    ensures { Becomes n types.now 1 0 0 t.old result t.new (λ dest constants. Unit {0}) (λ dest S x. number_by S Return 0 i x) }
{
    if i.b == 1 {
        if scalar(types, i.a) {
            return number_read(t, types, n, i);
        }
        return forget(t, n, types.len(), i);
    }
    forget(t, n, types.len(), i)
}

// All but jumps and returns: a store to a scalar, or all values are forgotten.
fn number_other(
    t: &mut [u64],
    types: &[u8],
    constants: &[u8],
    n: usize,
    i: Instruction,
    p: u32,
    k: Class,
) -> Instruction
    requires { Room n (length types.now) t.old × Named k (length types.now) i × (p < n) }
    ensures { Becomes n types.now 1 1 1 t.old result t.new (λ dest c. Stands n p i dest × (c ≡ constants.now)) (λ dest S x. other_by S k p i x) }
{
    if scalar(types, i.a) {
        return number_pure(t, types, constants, n, i, p, k);
    }
    forget(t, n, types.len(), i)
}

// JumpIfNot or JumpIf?
#[tactic(auto, unfolding(instruction::specs::Class::number_of))]
fn jumps_on_zero(k: Class) -> bool
    ensures { result ≡ on_zero k }
{
    matches!(k, Class::JumpIfNot)
}

// An instruction rewritten by the values known before it.
fn number_one(
    t: &mut [u64],
    types: &[u8],
    constants: &[u8],
    n: usize,
    i: Instruction,
    p: u32,
) -> Instruction
    requires { Room n (length types.now) t.old × Named (class i) (length types.now) i × (p < n) }
    ensures { Becomes n types.now 1 1 1 t.old result t.new (λ dest c. Stands n p i dest × (c ≡ constants.now)) (λ dest S x. number S p i x) }
{
    let k = i.class();
    match k {
        Class::JumpIf | Class::JumpIfNot => number_jump(t, types, n, i, jumps_on_zero(k)),
        Class::Return => number_return(t, types, n, i),
        _ => number_other(t, types, constants, n, i, p, k),
    }
}

// An empty table of values: the words of slots, numbers and heads are of epoch 0.
fn begin(t: &mut [u64], n: usize, locals: usize)
    requires { (0 < n) × (n ≤ 65536) × (locals ≤ 65536) × (end_at n locals ≤ length t.old) }
    ensures { Begins n locals t.old t.new }
{
    let heads = region::constants_at(n, locals) + n;
    t[0..heads].fill(0);
    let expressions = region::expressions_at(n, locals);
    t[expressions..expressions + n].fill(0);
    t[region::EPOCH] = 1;
}

// All values are forgotten where a block starts.
fn enter(t: &mut [u64], n: usize, locals: usize, leader: u32)
    requires { Ready n locals t.old × ((memory_of n locals t.old).epoch < 4294967295) }
    ensures { Enters n locals leader t.old t.new }
{
    if leader == 1 {
        table::clear(t, n, locals);
    }
}

// A turn of the walk at place `p`, whose instruction has the word `w`.
fn turn(t: &mut [u64], types: &[u8], constants: &[u8], n: usize, leader: u32, w: u64, p: u32) -> u64
    requires { Room n (length types.now) t.old × ((memory_of n (length types.now) t.old).epoch + 1 < 4294967295) × Named (class (of_word w)) (length types.now) (of_word w) × (p < n) }
    ensures { Turns n types.now constants.now leader w p t.old result t.new }
{
    enter(t, n, types.len(), leader);
    let i = Instruction::from_word(w);
    let numbered = number_one(t, types, constants, n, i, p);
    numbered.word()
}

// Value numbering of a whole function: its code, one word an instruction at the memory's start, is rewritten. `leaders` has 1 where
// a block starts. The table of values takes 14 numbers of the memory after the code for each instruction, 3 for each slot and 5
// more; what they hold, before and after, is free.
pub fn number_code(memory: &mut [u64], leaders: &[u32], types: &[u8], constants: &[u8])
    requires { Numberable (mid_of 0 (length leaders.now) memory.old) leaders.now types.now memory.old }
    ensures { (metadata : List ℕ) (locals : ℕ) (tables : Tables) → mid_of 0 (length leaders.now) memory.new ≡ map (λ (x : Cell). to_word x.instruction) (number_code (sections_with types.now constants.now locals tables) leaders.now (cells_by (mid_of 0 (length leaders.now) memory.old) metadata)) }
{
    let n = leaders.len();
    if n == 0 {
        return;
    }
    begin(&mut memory[n..], n, types.len());
    for p in 0..n {
        let w = memory[p];
        let leader = leaders[p];
        memory[p] = turn(&mut memory[n..], types, constants, n, leader, w, p as u32);
    }
}
