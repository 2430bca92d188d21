// The bytecode instruction: its eight bytes, its fields, and the class of its opcode.
#![tactic(auto)]

ghost use Rattle.std.specs.Prelude.{◌≡◌, ◌+◌, ◌*◌, ◌≤◌, length};
ghost use borrow.Rule.Slice.PartMut.{put_mid};
ghost use Rattle.words.specs.Le.{to_le};
ghost use Rattle.instruction.specs.Instruction.{instruction_at, to_word, of_word, imm32, imm32_unsigned, with_imm32, plain, class, for_loop_distance, static_call_func_id, call_shape_is_closure, call_shape_static_func_id};

pub mod opcode;

// What an instruction is to the optimizer.
#[derive(Clone, Copy)]
pub enum Class {
    Hint,
    LoadInt,
    LoadConst,
    Copy,
    CopyN,
    Unary,
    Binary,
    Jump,
    JumpIf,
    JumpIfNot,
    ForLoop,
    Return,
    Panic,
    Outside,
    Invalid,
}

#[derive(Clone, Copy)]
pub struct Instruction {
    pub op: u8,
    pub flags: u8,
    pub a: u16,
    pub b: u16,
    pub c: u16,
}

impl Instruction {
    pub fn from_word(w: u64) -> Self
        ensures { result ≡ of_word w }
    {
        Instruction {
            op: (w % 256) as u8,
            flags: (w / 256 % 256) as u8,
            a: (w / 65536 % 65536) as u16,
            b: (w / 4294967296 % 65536) as u16,
            c: (w / 281474976710656 % 65536) as u16,
        }
    }

    pub fn word(self) -> u64
        ensures { result ≡ to_word self }
    {
        (self.op as u64)
            + 256 * (self.flags as u64)
            + 65536 * (self.a as u64)
            + 4294967296 * (self.b as u64)
            + 281474976710656 * (self.c as u64)
    }

    pub fn imm32_unsigned(self) -> u32
        ensures { result ≡ imm32_unsigned self }
    {
        (self.b as u32) + 65536 * (self.c as u32)
    }

    // The signed immediate as a word.
    pub fn imm32(self) -> u64
        ensures { result ≡ imm32 self }
    {
        words::word::sign_extend::<32>(self.imm32_unsigned() as u64)
    }

    pub fn with_imm32(self, v: u32) -> Self
        ensures { result ≡ with_imm32 self v }
    {
        Instruction {
            b: (v % 65536) as u16,
            c: (v / 65536) as u16,
            ..self
        }
    }

    // An instruction with flags 0.
    pub fn new(op: u8, a: u16, b: u16, c: u16) -> Self
        ensures { result ≡ plain op a b c }
    {
        Instruction {
            op,
            flags: 0,
            a,
            b,
            c,
        }
    }

    // ForLoop's distance from the next place, as a word.
    pub fn for_loop_distance(self) -> u64
        ensures { result ≡ for_loop_distance self }
    {
        words::word::sign_extend::<16>(self.c as u64)
    }

    pub fn static_call_func_id(self) -> u32
        ensures { result ≡ static_call_func_id self }
    {
        (self.a as u32) + 65536 * (self.flags as u32)
    }

    pub fn call_shape_is_closure(self) -> bool
        ensures { result ≡ call_shape_is_closure self }
    {
        self.flags % 2 == 1
    }

    pub fn call_shape_static_func_id(self) -> u32
        ensures { result ≡ call_shape_static_func_id self }
    {
        (self.a as u32) + 65536 * ((self.flags / 2) as u32)
    }

    pub fn class(self) -> Class
        ensures { result ≡ class self }
    {
        let op = self.op;
        opcode::class_of(op)
    }
}

// The instruction at a place of the code.
pub fn read(code: &[u8], place: usize) -> Instruction
    requires { 8 * place + 8 ≤ length code.now }
    ensures { result ≡ instruction_at code.now place }
{
    let at = 8 * place;
    Instruction {
        op: code[at],
        flags: code[at + 1],
        a: words::le::read_u16(code, at + 2),
        b: words::le::read_u16(code, at + 4),
        c: words::le::read_u16(code, at + 6),
    }
}

// The eight bytes of an instruction at a byte of a buffer.
pub fn write(d: &mut [u8], at: usize, i: Instruction)
    requires { at + 8 ≤ length d.old }
    ensures { d.new ≡ put_mid at 8 d.old (to_le 8 (to_word i)) }
{
    words::le::write_u64(d, at, i.word())
}
