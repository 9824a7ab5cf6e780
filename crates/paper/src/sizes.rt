// The paper's numbers, each in one place. Those of the definitions are in specs/Sizes; the proofs of the code hold the two together.

// Bytes of a word, of a word of 64 bits, and of a question's two counts.
pub const WORD_BYTES: usize = 4;

pub const LONG_BYTES: usize = 8;

pub const COUNTS_BYTES: usize = 2 * LONG_BYTES;

// Words of a place, a stage, a block and an office record.
pub const PLACE_WORDS: usize = 3;

pub const STAGE_WORDS: usize = 3;

pub const BLOCK_WORDS: usize = 6;

pub const OFFICE_WORDS: usize = 1;

// Words of the answer slice for each listed office, and of the working slice for each office.
pub const LINE_WORDS: usize = 5;

pub const SLOT_WORDS: usize = 6;

// The most records of each section.
pub const MOST_PLACES: usize = 1024;

pub const MOST_STAGES: usize = 8192;

pub const MOST_BLOCKS: usize = 262_144;

pub const MOST_OFFICES: usize = 4096;

// x and y are below it.
pub const GRID_SIDE: u32 = 1024;

// The level of the block that covers every cell, and how many cells there are.
pub const TOP_LEVEL: u32 = 10;

pub const ALL_CELLS: u32 = 1_048_576;

// The most furlongs of a stage, and the most stages that leave a place.
pub const MOST_FURLONGS: u32 = 65_535;

pub const MOST_LEAVING: u32 = 8;

// Ratios are in 4,096ths.
pub const RATIO_UNIT: u64 = 4096;

// Crow distances are in 64ths of a cell.
pub const CROW_UNIT: u64 = 64;

// The directions, as a question names them.
pub const OUTWARD: u32 = 0;

pub const INWARD: u32 = 1;

// The program's input: q, k and the direction before the sheet, in bytes; and its limits, bytes of the sheet, places, offices.
pub const ASKED_BYTES: usize = 3 * WORD_BYTES;

pub const PROGRAM_BYTES: usize = 65_536;

pub const PROGRAM_PLACES: usize = 128;

pub const PROGRAM_OFFICES: usize = 1024;
