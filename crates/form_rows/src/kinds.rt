// The kind of an item's row: a sort, a variable, or a function, to which its number of inputs is added.
pub const SORT: u32 = 0;

pub const VARIABLE: u32 = 1;

pub const FUNCTION: u32 = 2;

// A function with one input, as a prefix operator has, and with two, as an infix one.
pub const PREFIX: u32 = 3;

pub const INFIX: u32 = 4;
