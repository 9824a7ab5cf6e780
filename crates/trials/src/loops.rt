// A sheet of one-way loops, as large as the marked one: the roads 0 to 1, 1 to 2, 1 to 3, 2 to 0, 2 to 3 and 3 to 0, none of which has a way back of its own.
// Offices 0, 1 and 2 stand at places 1, 2 and 3: from place 0 the roads to them are 3, 8 and 12 furlongs long, and 13, 8 and 7 the roads from them.
use crate::WORDS;

pub const LOOPS: [u32; WORDS] = [
    4, 0, 0, 201, 3, 0, 202, 6, 3, 203, 2, 6, 204, 6, 0, 1, 3, 1, 2, 5, 1, 3, 9, 2, 0, 8, 2, 3, 6,
    3, 0, 7, 7, 0, 0, 10, 0, 64, 122, 1, 0, 2, 0, 277, 278, 1, 16, 2, 0, 75, 76, 1, 32, 2, 1, 94,
    95, 2, 0, 2, 0, 76, 167, 2, 32, 2, 1, 76, 77, 3, 0, 10, 0, 70, 192, 3, 1, 2, 3,
];
