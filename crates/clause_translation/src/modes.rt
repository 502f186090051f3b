// What a translation does: it leaves rows as they are, renames by pairs, or binds by them the items of a parameter.
pub const AS_IS: u32 = 0;

pub const RENAMING: u32 = 1;

pub const BINDING: u32 = 2;
