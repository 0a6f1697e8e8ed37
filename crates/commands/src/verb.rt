// What a command is for, as the table and the dispatch on it name it. It is a number and no enum, since `shown::shows`
// and `done::does` promise an answer for every byte that stands in a verb's place.
pub const READ_TEMPORARY_WITH_TIME: u8 = 0;

pub const READ_TEMPORARY: u8 = 1;

pub const READ_MESSAGE_WITH_TIME: u8 = 2;

pub const READ_MESSAGE: u8 = 3;

pub const READ_DATA_WITH_TIME: u8 = 4;

pub const READ_DATA: u8 = 5;

pub const READ_FILTER: u8 = 6;

pub const READ_MASK: u8 = 7;

pub const READ_CTRL0: u8 = 8;

pub const READ_CTRL1: u8 = 9;

pub const READ_BTR0: u8 = 10;

pub const READ_BTR1: u8 = 11;

pub const READ_MESSTAT: u8 = 12;

pub const READ_ERR: u8 = 13;

pub const READ_INTF: u8 = 14;

pub const READ_STATF: u8 = 15;

pub const READ_INTE: u8 = 16;

pub const READ_STATFE: u8 = 17;

pub const READ_GPINE: u8 = 18;

pub const READ_REC: u8 = 19;

pub const READ_TEC: u8 = 20;

pub const READ_HISTORY: u8 = 21;

pub const READ_RECESSIVE_COUNT: u8 = 22;

pub const READ_TIME: u8 = 23;

pub const ABORT_TRANSMISSION: u8 = 24;

pub const CLEAR_TRANSMIT: u8 = 25;

pub const MASTER_RESET: u8 = 26;

pub const RESET_TIME: u8 = 27;

pub const CLEAR_RECEIVE: u8 = 28;

pub const WRITE_MESSAGE: u8 = 29;

pub const WRITE_CTRL0: u8 = 30;

pub const WRITE_CTRL1: u8 = 31;

pub const WRITE_BTR0: u8 = 32;

pub const WRITE_BTR1: u8 = 33;

pub const WRITE_INTE: u8 = 34;

pub const WRITE_STATFE: u8 = 35;

pub const WRITE_GPINE: u8 = 36;

pub const WRITE_REC: u8 = 37;

pub const WRITE_TEC: u8 = 38;

pub const WRITE_FILTER: u8 = 39;

pub const WRITE_MASK: u8 = 40;
