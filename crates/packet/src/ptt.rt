// The PTT types of document 01, by their codes. No enum: a message may have any code, and what no reader would take is refused
// where it is read or written (`Unwritable`).
pub const OFF: u8 = 0;

pub const NORMAL: u8 = 1;

pub const COUPLING: u8 = 2;

pub const PRIORITY: u8 = 3;

pub const EMERGENCY: u8 = 4;

// The last; 6 and 7 are reserved.
pub const TEST: u8 = 5;
