// The sections of a module that are compared, as specs/Alike.antt numbers them.
pub const PARAMETERS: u32 = 0;

pub const EXPORTS: u32 = 1;

pub const IMPORTS: u32 = 2;
