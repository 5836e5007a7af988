// The kinds of records: document 01, "The book", and document 02, No. 1. Numbers, as an enum is no plainer: a book is
// any bytes, so that each reader would match on a byte first, and each writer turn the kind back into one.
pub const MODEL: u8 = 1;

pub const TOPIC: u8 = 2;

pub const TOPIC_END: u8 = 3;

pub const CLASS: u8 = 4;

pub const STRUCTURE: u8 = 5;

pub const ATTRIBUTE: u8 = 6;

pub const DOMAIN: u8 = 7;

pub const TEXT: u8 = 8;

pub const MTEXT: u8 = 9;

pub const RANGE: u8 = 10;

pub const NUMERIC: u8 = 11;

pub const NAMED_STRUCTURE: u8 = 12;

pub const LIST: u8 = 13;

pub const ELEMENT: u8 = 14;

pub const LIST_END: u8 = 15;

pub const CLASS_END: u8 = 16;

pub const NAMED_DOMAIN: u8 = 17;

pub const UNIT: u8 = 18;

pub const UNIT_OF_NUMBER: u8 = 19;
