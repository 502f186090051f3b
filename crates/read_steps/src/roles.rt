// The roles as they are handed on from step to step, one byte each: a byte is below 256, so no step has to ask that an entry's word has room for its
// role. The crates that read the tape compare words, and take those of `tape::roles` themselves.
use tape::roles;

pub const MODULE: u8 = roles::MODULE as u8;

pub const PARAMETER: u8 = roles::PARAMETER as u8;

pub const PARAMETER_SORT: u8 = roles::PARAMETER_SORT as u8;

pub const PARAMETER_FUNCTION: u8 = roles::PARAMETER_FUNCTION as u8;

pub const EXPORT_SORT: u8 = roles::EXPORT_SORT as u8;

pub const EXPORT_FUNCTION: u8 = roles::EXPORT_FUNCTION as u8;

pub const HIDDEN_SORT: u8 = roles::HIDDEN_SORT as u8;

pub const HIDDEN_FUNCTION: u8 = roles::HIDDEN_FUNCTION as u8;

pub const INPUT: u8 = roles::INPUT as u8;

pub const OUTPUT: u8 = roles::OUTPUT as u8;

pub const IMPORT: u8 = roles::IMPORT as u8;

pub const RENAMING: u8 = roles::RENAMING as u8;

pub const BINDING: u8 = roles::BINDING as u8;

pub const OLD: u8 = roles::OLD as u8;

pub const NEW: u8 = roles::NEW as u8;

pub const ACTUAL: u8 = roles::ACTUAL as u8;

pub const VARIABLE: u8 = roles::VARIABLE as u8;

pub const VARIABLE_SORT: u8 = roles::VARIABLE_SORT as u8;

pub const TAG: u8 = roles::TAG as u8;

pub const ALONE: u8 = roles::ALONE as u8;

pub const HEAD: u8 = roles::HEAD as u8;

pub const CLOSE: u8 = roles::CLOSE as u8;

pub const CONDITION: u8 = roles::CONDITION as u8;

pub const CONCLUSION: u8 = roles::CONCLUSION as u8;

pub const PREFIX: u8 = roles::PREFIX as u8;

pub const INFIX: u8 = roles::INFIX as u8;
