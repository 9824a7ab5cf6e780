// The program: reads q, k and the direction as three words and then a sheet from standard input, and prints the list or the refusal.
#![tactic(auto)]

mod fill;
mod serve;

use crate::fill::fill;
use crate::serve::serve;
use paper::sizes::{ASKED_BYTES, LINE_WORDS, PROGRAM_BYTES, PROGRAM_OFFICES};
use std::io;

// One byte more than the longest input that is served, so that a longer one is known by its length, and no more is read.
const INPUT_BYTES: usize = ASKED_BYTES + PROGRAM_BYTES + 1;

// Room for the digits of a 64-bit number, and the byte after them.
const NUMBER_BYTES: usize = 21;

// Room for the longest text: two numbers in the first line, and a line for each of as many offices as the program takes.
const OUTPUT_BYTES: usize = NUMBER_BYTES * (2 + LINE_WORDS * PROGRAM_OFFICES);

fn main(rt: HostRuntime) -> io::Result<()> {
    let mut input = [0u8; INPUT_BYTES];
    let mut output = [0u8; OUTPUT_BYTES];
    let length = fill(&mut rt.stdin(), &mut input)?;
    let printed = serve(&input[..length], &mut output);
    rt.write_all(&output[..printed])
}
