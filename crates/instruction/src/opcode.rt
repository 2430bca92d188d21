// The opcodes and their classes, by one match.
ghost use Rattle.std.specs.Prelude.{◌≡◌};
ghost use Rattle.instruction.specs.Class.{class_of};

use crate::Class;

// The opcodes: "The opcode's number is its place in `Opcode`, from 0". They are bytes, and no enum, since the code of a unit may hold
// any byte and the definitions read it as a number.
pub const HINT: u8 = 0;

pub const LOAD_INT: u8 = 1;

pub const LOAD_CONST: u8 = 2;

pub const COPY: u8 = 3;

pub const COPY_N: u8 = 4;

pub const SLOT_GET: u8 = 5;

pub const SLOT_SET: u8 = 6;

pub const SLOT_GET_N: u8 = 7;

pub const SLOT_SET_N: u8 = 8;

pub const GLOBAL_GET: u8 = 9;

pub const GLOBAL_GET_N: u8 = 10;

pub const GLOBAL_SET: u8 = 11;

pub const GLOBAL_SET_N: u8 = 12;

pub const PTR_NEW: u8 = 13;

pub const PTR_GET: u8 = 14;

pub const PTR_SET: u8 = 15;

pub const PTR_GET_N: u8 = 16;

pub const PTR_SET_N: u8 = 17;

pub const PTR_ADD: u8 = 18;

pub const ADD_I: u8 = 19;

pub const SUB_I: u8 = 20;

pub const MUL_I: u8 = 21;

pub const DIV_I: u8 = 22;

pub const DIV_U: u8 = 23;

pub const MOD_I: u8 = 24;

pub const MOD_U: u8 = 25;

pub const NEG_I: u8 = 26;

pub const ADD_F: u8 = 27;

pub const SUB_F: u8 = 28;

pub const MUL_F: u8 = 29;

pub const DIV_F: u8 = 30;

pub const NEG_F: u8 = 31;

pub const EQ_I: u8 = 32;

pub const NE_I: u8 = 33;

pub const LT_I: u8 = 34;

pub const LT_U: u8 = 35;

pub const LE_I: u8 = 36;

pub const LE_U: u8 = 37;

pub const GT_I: u8 = 38;

pub const GT_U: u8 = 39;

pub const GE_I: u8 = 40;

pub const GE_U: u8 = 41;

pub const EQ_F: u8 = 42;

pub const NE_F: u8 = 43;

pub const LT_F: u8 = 44;

pub const LE_F: u8 = 45;

pub const GT_F: u8 = 46;

pub const GE_F: u8 = 47;

pub const AND: u8 = 48;

pub const OR: u8 = 49;

pub const XOR: u8 = 50;

pub const AND_NOT: u8 = 51;

pub const NOT: u8 = 52;

pub const SHL: u8 = 53;

pub const SHR_S: u8 = 54;

pub const SHR_U: u8 = 55;

pub const BOOL_NOT: u8 = 56;

pub const JUMP: u8 = 57;

pub const JUMP_IF: u8 = 58;

pub const JUMP_IF_NOT: u8 = 59;

pub const CALL: u8 = 60;

pub const CALL_EXTERN: u8 = 61;

pub const CALL_CLOSURE: u8 = 62;

pub const CALL_IFACE: u8 = 63;

pub const RETURN: u8 = 64;

pub const STR_NEW: u8 = 65;

pub const STR_LEN: u8 = 66;

pub const STR_INDEX: u8 = 67;

pub const STR_CONCAT: u8 = 68;

pub const STR_SLICE: u8 = 69;

pub const STR_EQ: u8 = 70;

pub const STR_NE: u8 = 71;

pub const STR_LT: u8 = 72;

pub const STR_LE: u8 = 73;

pub const STR_GT: u8 = 74;

pub const STR_GE: u8 = 75;

pub const STR_DECODE_RUNE: u8 = 76;

pub const ARRAY_NEW: u8 = 77;

pub const ARRAY_GET: u8 = 78;

pub const ARRAY_SET: u8 = 79;

pub const ARRAY_ADDR: u8 = 80;

pub const SLICE_NEW: u8 = 81;

pub const SLICE_GET: u8 = 82;

pub const SLICE_SET: u8 = 83;

pub const SLICE_LEN: u8 = 84;

pub const SLICE_CAP: u8 = 85;

pub const SLICE_SLICE: u8 = 86;

pub const SLICE_APPEND: u8 = 87;

pub const SLICE_ADDR: u8 = 88;

pub const MAP_NEW: u8 = 89;

pub const MAP_GET: u8 = 90;

pub const MAP_SET: u8 = 91;

pub const MAP_DELETE: u8 = 92;

pub const MAP_LEN: u8 = 93;

pub const MAP_ITER_INIT: u8 = 94;

pub const MAP_ITER_NEXT: u8 = 95;

pub const QUEUE_NEW: u8 = 96;

pub const QUEUE_SEND: u8 = 97;

pub const QUEUE_RECV: u8 = 98;

pub const QUEUE_CLOSE: u8 = 99;

pub const QUEUE_LEN: u8 = 100;

pub const QUEUE_CAP: u8 = 101;

pub const SELECT_BEGIN: u8 = 102;

pub const SELECT_SEND: u8 = 103;

pub const SELECT_RECV: u8 = 104;

pub const SELECT_EXEC: u8 = 105;

pub const CLOSURE_NEW: u8 = 106;

pub const CLOSURE_GET: u8 = 107;

pub const GO_START: u8 = 108;

pub const DEFER_PUSH: u8 = 109;

pub const ERR_DEFER_PUSH: u8 = 110;

pub const PANIC: u8 = 111;

pub const RECOVER: u8 = 112;

pub const IFACE_ASSIGN: u8 = 113;

pub const IFACE_ASSERT: u8 = 114;

pub const IFACE_EQ: u8 = 115;

pub const CONV_I2_F: u8 = 116;

pub const CONV_F2_I: u8 = 117;

pub const CONV_F64_F32: u8 = 118;

pub const CONV_F32_F64: u8 = 119;

pub const TRUNC: u8 = 120;

pub const INDEX_CHECK: u8 = 121;

pub const ISLAND_NEW: u8 = 122;

pub const GO_ISLAND: u8 = 123;

pub const FOR_LOOP: u8 = 124;

pub const ADD_F32: u8 = 125;

pub const SUB_F32: u8 = 126;

pub const MUL_F32: u8 = 127;

pub const DIV_F32: u8 = 128;

pub const NEG_F32: u8 = 129;

pub const EQ_F32: u8 = 130;

pub const NE_F32: u8 = 131;

pub const LT_F32: u8 = 132;

pub const LE_F32: u8 = 133;

pub const GT_F32: u8 = 134;

pub const GE_F32: u8 = 135;

// The class of an opcode. It stands for `Opcode::from_u8`, a match in place of `transmute`: one arm for each opcode becomes a table of
// the program's constant data. Tests of the class are bits of a constant by its place in `Class`, which take no branch.
pub fn class_of(op: u8) -> Class
    ensures { result ≡ class_of op }
{
    match op {
        HINT => Class::Hint,
        LOAD_INT => Class::LoadInt,
        LOAD_CONST => Class::LoadConst,
        COPY => Class::Copy,
        COPY_N => Class::CopyN,
        SLOT_GET => Class::Outside,
        SLOT_SET => Class::Outside,
        SLOT_GET_N => Class::Outside,
        SLOT_SET_N => Class::Outside,
        GLOBAL_GET => Class::Outside,
        GLOBAL_GET_N => Class::Outside,
        GLOBAL_SET => Class::Outside,
        GLOBAL_SET_N => Class::Outside,
        PTR_NEW => Class::Outside,
        PTR_GET => Class::Outside,
        PTR_SET => Class::Outside,
        PTR_GET_N => Class::Outside,
        PTR_SET_N => Class::Outside,
        PTR_ADD => Class::Outside,
        ADD_I => Class::Binary,
        SUB_I => Class::Binary,
        MUL_I => Class::Binary,
        DIV_I => Class::Outside,
        DIV_U => Class::Outside,
        MOD_I => Class::Outside,
        MOD_U => Class::Outside,
        NEG_I => Class::Unary,
        ADD_F => Class::Binary,
        SUB_F => Class::Binary,
        MUL_F => Class::Binary,
        DIV_F => Class::Binary,
        NEG_F => Class::Unary,
        EQ_I => Class::Binary,
        NE_I => Class::Binary,
        LT_I => Class::Binary,
        LT_U => Class::Binary,
        LE_I => Class::Binary,
        LE_U => Class::Binary,
        GT_I => Class::Binary,
        GT_U => Class::Binary,
        GE_I => Class::Binary,
        GE_U => Class::Binary,
        EQ_F => Class::Binary,
        NE_F => Class::Binary,
        LT_F => Class::Binary,
        LE_F => Class::Binary,
        GT_F => Class::Binary,
        GE_F => Class::Binary,
        AND => Class::Binary,
        OR => Class::Binary,
        XOR => Class::Binary,
        AND_NOT => Class::Binary,
        NOT => Class::Unary,
        SHL => Class::Outside,
        SHR_S => Class::Outside,
        SHR_U => Class::Outside,
        BOOL_NOT => Class::Unary,
        JUMP => Class::Jump,
        JUMP_IF => Class::JumpIf,
        JUMP_IF_NOT => Class::JumpIfNot,
        CALL => Class::Outside,
        CALL_EXTERN => Class::Outside,
        CALL_CLOSURE => Class::Outside,
        CALL_IFACE => Class::Outside,
        RETURN => Class::Return,
        STR_NEW => Class::Outside,
        STR_LEN => Class::Outside,
        STR_INDEX => Class::Outside,
        STR_CONCAT => Class::Outside,
        STR_SLICE => Class::Outside,
        STR_EQ => Class::Outside,
        STR_NE => Class::Outside,
        STR_LT => Class::Outside,
        STR_LE => Class::Outside,
        STR_GT => Class::Outside,
        STR_GE => Class::Outside,
        STR_DECODE_RUNE => Class::Outside,
        ARRAY_NEW => Class::Outside,
        ARRAY_GET => Class::Outside,
        ARRAY_SET => Class::Outside,
        ARRAY_ADDR => Class::Outside,
        SLICE_NEW => Class::Outside,
        SLICE_GET => Class::Outside,
        SLICE_SET => Class::Outside,
        SLICE_LEN => Class::Outside,
        SLICE_CAP => Class::Outside,
        SLICE_SLICE => Class::Outside,
        SLICE_APPEND => Class::Outside,
        SLICE_ADDR => Class::Outside,
        MAP_NEW => Class::Outside,
        MAP_GET => Class::Outside,
        MAP_SET => Class::Outside,
        MAP_DELETE => Class::Outside,
        MAP_LEN => Class::Outside,
        MAP_ITER_INIT => Class::Outside,
        MAP_ITER_NEXT => Class::Outside,
        QUEUE_NEW => Class::Outside,
        QUEUE_SEND => Class::Outside,
        QUEUE_RECV => Class::Outside,
        QUEUE_CLOSE => Class::Outside,
        QUEUE_LEN => Class::Outside,
        QUEUE_CAP => Class::Outside,
        SELECT_BEGIN => Class::Outside,
        SELECT_SEND => Class::Outside,
        SELECT_RECV => Class::Outside,
        SELECT_EXEC => Class::Outside,
        CLOSURE_NEW => Class::Outside,
        CLOSURE_GET => Class::Outside,
        GO_START => Class::Outside,
        DEFER_PUSH => Class::Outside,
        ERR_DEFER_PUSH => Class::Outside,
        PANIC => Class::Panic,
        RECOVER => Class::Outside,
        IFACE_ASSIGN => Class::Outside,
        IFACE_ASSERT => Class::Outside,
        IFACE_EQ => Class::Outside,
        CONV_I2_F => Class::Unary,
        CONV_F2_I => Class::Unary,
        CONV_F64_F32 => Class::Unary,
        CONV_F32_F64 => Class::Unary,
        TRUNC => Class::Unary,
        INDEX_CHECK => Class::Outside,
        ISLAND_NEW => Class::Outside,
        GO_ISLAND => Class::Outside,
        FOR_LOOP => Class::ForLoop,
        ADD_F32 => Class::Binary,
        SUB_F32 => Class::Binary,
        MUL_F32 => Class::Binary,
        DIV_F32 => Class::Binary,
        NEG_F32 => Class::Unary,
        EQ_F32 => Class::Binary,
        NE_F32 => Class::Binary,
        LT_F32 => Class::Binary,
        LE_F32 => Class::Binary,
        GT_F32 => Class::Binary,
        GE_F32 => Class::Binary,
        _ => Class::Invalid,
    }
}
