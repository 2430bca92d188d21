// The kinds that stand in the sections. They are bytes, and no enum: the definitions read them as numbers, and a byte of bytes that
// are no unit may be any.

// Of an entry of metadata: those that the optimizer tells apart. The last of all is LOOP_END.
pub const CALL_LAYOUT: u8 = 8;

pub const CALL_IFACE_LAYOUT: u8 = 9;

pub const CALL_EXTERN_LAYOUT: u8 = 10;

pub const SELECT_EXEC_LAYOUT: u8 = 12;

pub const LOOP_END: u8 = 15;

// The last type of a local slot.
pub const FLOAT_SLOT: u8 = 5;

// Of a constant.
pub const NIL: u8 = 0;

pub const BOOL: u8 = 1;

pub const INT: u8 = 2;

pub const FLOAT: u8 = 3;

pub const STRING: u8 = 4;

// Of a select's case.
pub const SEND: u8 = 0;

pub const RECEIVE: u8 = 1;
