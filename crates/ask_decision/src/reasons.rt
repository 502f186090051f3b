// Why a module has to be asked again, as specs/Reasons.antt numbers it.
pub const ABSENT_BEFORE: u32 = 1;

pub const ABSENT_NOW: u32 = 2;

pub const REACHED_OTHERWISE: u32 = 3;

pub const ASKED_CHANGED: u32 = 4;

pub const PARAMETERS_CHANGED: u32 = 5;

pub const EXPORTS_CHANGED: u32 = 6;

pub const IMPORTS_CHANGED: u32 = 7;

pub const NAMED_OTHERWISE: u32 = 8;
