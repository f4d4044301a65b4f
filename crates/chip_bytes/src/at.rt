// Where each field of a chip stands in its bytes, in the order of the C struct. A field that is added stands behind the last.
pub const PART: usize = 0;

pub const SELECT: usize = 1;

pub const PPEN: usize = 2;

pub const BL: usize = 3;

pub const RPEL: usize = 4;

pub const PEL: usize = 5;
// The address counter.
pub const COUNTER_HIGH: usize = 6;

pub const COUNTER_LOW: usize = 7;

pub const MARK: usize = 8;

pub const BUSY: usize = 9;

pub const SCL: usize = 10;

pub const LINE: usize = 11;
// The phase's number and what it carries.
pub const PHASE: usize = 12;

pub const BITS: usize = 13;

pub const BYTE: usize = 14;

pub const HIGH: usize = 15;

pub const COUNT: usize = 16;
// A flag, and then a byte, for each of the 32 places of a sector.
pub const PLACES: usize = 17;

pub const LOAD: usize = 49;

pub const SPOIL: usize = 81;
// The kind of what waits and what it carries: the sector's number, or PPEN and BL.
pub const WAIT: usize = 82;

pub const WAIT_HIGH: usize = 83;

pub const WAIT_LOW: usize = 84;

pub const WAIT_PPEN: usize = 85;

pub const WAIT_BL: usize = 86;
// A flag, and then a byte, for each of the 32 places of the waiting sector.
pub const WAIT_PLACES: usize = 87;

pub const WAIT_BYTES: usize = 119;
// How many bytes a chip has.
pub const SIZE: usize = 151;
