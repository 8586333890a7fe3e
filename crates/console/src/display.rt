// The display of the programs.
pub const COLUMNS: u8 = 20;

pub const LINES: u8 = 4;

pub const WIDTH: usize = COLUMNS as usize;

pub const ROWS: usize = LINES as usize;

// The bytes of a picture.
pub const CELLS: usize = WIDTH * ROWS;
