// The forms of names: how a name's token stands in the name, as Word.antt of the names numbers it.
pub const PLAIN: u32 = 0;

pub const PREFIX: u32 = 1;

pub const INFIX: u32 = 2;
