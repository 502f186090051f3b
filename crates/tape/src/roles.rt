// What stands at an entry of the tape: the role of an entry's word, as specs/Tape.antt numbers it; 0 is no entry.
pub const MODULE: u32 = 1;

pub const PARAMETER: u32 = 2;

pub const PARAMETER_SORT: u32 = 3;

pub const PARAMETER_FUNCTION: u32 = 4;

pub const EXPORT_SORT: u32 = 5;

pub const EXPORT_FUNCTION: u32 = 6;

pub const HIDDEN_SORT: u32 = 7;

pub const HIDDEN_FUNCTION: u32 = 8;

pub const INPUT: u32 = 9;

pub const OUTPUT: u32 = 10;

pub const IMPORT: u32 = 11;

pub const RENAMING: u32 = 12;

pub const BINDING: u32 = 13;

pub const OLD: u32 = 14;

pub const NEW: u32 = 15;

pub const ACTUAL: u32 = 16;

pub const VARIABLE: u32 = 17;

pub const VARIABLE_SORT: u32 = 18;

pub const TAG: u32 = 19;

pub const ALONE: u32 = 20;

pub const HEAD: u32 = 21;

pub const CLOSE: u32 = 22;

pub const CONDITION: u32 = 23;

pub const CONCLUSION: u32 = 24;

pub const PREFIX: u32 = 25;

pub const INFIX: u32 = 26;
