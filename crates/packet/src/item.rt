// The types of the items that a packet may carry (01, The packet; type 4 since request 1 of 02).
pub const SQI: u8 = 1;

pub const CLIMAX: u8 = 2;

pub const DDC: u8 = 4;

pub const SIDE: u8 = 5;
