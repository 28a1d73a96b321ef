// The most that a file holds, the numbers in one record of each table, and the least lengths that follow.
pub const MOST_ATOMS: usize = 64;

pub const MOST_FORMULAS: usize = 1024;

pub const MOST_ROWS: usize = 2048;

pub const MOST_ENTRIES: usize = 16384;

pub const MOST_ON_SIDE: usize = 64;

pub const MOST_BYTES: usize = 65536;

pub const NAME_WIDTH: usize = 2;

pub const NODE_WIDTH: usize = 3;

pub const ROW_WIDTH: usize = 8;

// Room for the most of each: the least lengths of the lent tables, and of the notes on each formula.
pub const LEAST_NAMES: usize = NAME_WIDTH * MOST_ATOMS;

pub const LEAST_FORMULAS: usize = NODE_WIDTH * MOST_FORMULAS;

pub const LEAST_ROWS: usize = ROW_WIDTH * MOST_ROWS;

pub const LEAST_NOTES: usize = 3 * MOST_FORMULAS;
