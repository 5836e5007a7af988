// The bits of a record's flags: document 01, "The book". Numbers, as each is a summand of one byte.
pub const ABSTRACT: u8 = 1;

pub const FINAL: u8 = 2;

pub const EXTENDED: u8 = 4;

// In effect.
pub const MANDATORY: u8 = 8;
