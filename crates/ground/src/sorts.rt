// The numbers of sorts: `sort_number`. Numbers, not an enum, as the rows of fixed memory hold them.
pub const TOPIC: usize = 0;

pub const CLASS: usize = 1;

pub const STRUCTURE: usize = 2;

pub const DOMAIN: usize = 3;

pub const UNIT: usize = 4;
