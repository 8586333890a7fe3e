// Where each piece of a session is in its bytes, and how many they are; specs/Layout.antt has the table.
pub const ABOVE: usize = 3;

pub const HERE: usize = 73;

pub const IDLE: usize = 83;

pub const MODE: usize = 84;

pub const CHOSEN: usize = 93;

pub const CELLS: usize = 94;

pub const TYPED: usize = 222;

pub const SIZE: usize = 230;

// A level is a place of eight bytes and two bytes more, and a cell is four bytes.
pub const LEVEL: usize = 10;

pub const CELL: usize = 4;

// The modes by number.
pub const BROWSING: u8 = 0;

pub const VISIT: u8 = 1;

pub const PASSWORD: u8 = 2;
