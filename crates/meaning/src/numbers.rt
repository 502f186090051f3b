// The sizes of a text and of a normal form, and the numbers that come back, as specs/Numbers.antt has them.

// ---- sizes of a text

pub const TEXT_SIZE: usize = 32768;

pub const NAME_SIZE: usize = 40;

pub const MODULE_LIMIT: usize = 64;

pub const IMPORT_LIMIT: usize = 16;

pub const BINDING_LIMIT: usize = 4;

pub const PAIR_LIMIT: usize = 32;

pub const ARGUMENT_LIMIT: usize = 8;

pub const CONDITION_LIMIT: usize = 8;

pub const BRACKET_LIMIT: usize = 15;

pub const NODE_LIMIT: usize = 64;

// ---- sizes of a normal form, and of all together

pub const PARAMETER_ROOM: u32 = 8;

pub const ITEM_ROOM: u32 = 512;

pub const EQUATION_ROOM: u32 = 256;

pub const ITEM_TOTAL: u32 = 1024;

pub const EQUATION_TOTAL: u32 = 512;

pub const NODE_TOTAL: u32 = 4096;

// ---- the numbers that come back: those of a text that is not read

pub const NO_TOKEN_THERE: u8 = 1;

pub const NOT_ALLOWED: u8 = 2;

pub const OTHER_END: u8 = 3;

pub const OVER_SIZE: u8 = 4;

pub const MODULE_TWICE: u8 = 5;

// ---- and those of an evaluation

pub const ACCEPTED: u32 = 0;

pub const ASKED_ABSENT: u32 = 6;

pub const NAMED_ABSENT: u32 = 7;

pub const NAMED_LATE: u32 = 8;

pub const DECLARED_TWICE: u32 = 9;

pub const CLASHING: u32 = 10;

pub const OVERLOADING: u32 = 11;

pub const BAD_VARIABLE: u32 = 12;

pub const BAD_SORT: u32 = 13;

pub const BAD_RENAMING: u32 = 14;

pub const BAD_PARAMETER: u32 = 15;

pub const ILL_TYPED: u32 = 17;

pub const NO_ROOM: u32 = 18;

pub const LENT_SHORT: u32 = 19;

pub const FORMAL_ABSENT: u32 = 22;

pub const FORMAL_TWICE: u32 = 23;

pub const ACTUAL_ABSENT: u32 = 24;

pub const OTHER_KIND: u32 = 25;

pub const OTHER_TYPE: u32 = 26;

pub const FORMAL_UNPAIRED: u32 = 27;
