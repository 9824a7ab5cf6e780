// Runs the cases of the papers that are run and not proved, the printed cases, and questions both ways on one-way loops, through the library, and prints a line for each.
#![tactic(auto)]

mod loops;
mod marked;

use crate::loops::LOOPS;
use crate::marked::MARKED;
use nearest::question;
use paper::Refusal;
use paper::sizes::{
    BLOCK_WORDS, INWARD, LINE_WORDS, OFFICE_WORDS, OUTWARD, PLACE_WORDS, SLOT_WORDS, STAGE_WORDS,
    WORD_BYTES,
};
use sheet::layout;
use std::io;
use truth::check;

// How many places, stages, blocks and offices the marked sheet has.
const PLACES: usize = 4;

const STAGES: usize = 6;

const BLOCKS: usize = 7;

const OFFICES: usize = 3;

// The words at which its counts stand, and how many words and bytes it has.
const STAGES_AT: usize = 1 + PLACE_WORDS * PLACES;

const BLOCKS_AT: usize = STAGES_AT + 1 + STAGE_WORDS * STAGES;

const OFFICES_AT: usize = BLOCKS_AT + 1 + BLOCK_WORDS * BLOCKS;

pub const WORDS: usize = OFFICES_AT + 1 + OFFICE_WORDS * OFFICES;

const BYTES: usize = WORD_BYTES * WORDS;

// The words that the cases change.
const X_OF_PLACE_2: usize = 1 + PLACE_WORDS * 2;

const GAZETTEER_OF_PLACE_3: usize = 3 + PLACE_WORDS * 3;

const LENGTH_OF_STAGE_0: usize = STAGES_AT + STAGE_WORDS;

const LEVEL_OF_BLOCK_5: usize = BLOCKS_AT + 3 + BLOCK_WORDS * 5;

const LOW_OF_BLOCK_5: usize = BLOCKS_AT + 5 + BLOCK_WORDS * 5;

// Bytes of the sheet as far as its first office, of its last block, of the sheet without that block, and of what stands before it.
const FRONT_BYTES: usize = WORD_BYTES * (OFFICES_AT + 1 + OFFICE_WORDS);

const LAST_BLOCK_BYTES: usize = WORD_BYTES * BLOCK_WORDS;

const SHORT_BYTES: usize = BYTES - LAST_BLOCK_BYTES;

const LAST_BLOCK_AT: usize = WORD_BYTES * (OFFICES_AT - BLOCK_WORDS);

// How many blocks are left without the last one.
const BLOCKS_LEFT: u32 = BLOCKS as u32 - 1;

// The words as bytes, low byte first.
fn bytes_of(words: [u32; WORDS]) -> [u8; BYTES] {
    let mut bytes = [0u8; BYTES];
    let (chunks, _) = bytes.as_chunks_mut::<WORD_BYTES>();
    for (chunk, word) in chunks.iter_mut().zip(&words) {
        *chunk = word.to_le_bytes();
    }
    bytes
}

// The marked sheet with one word changed.
fn with_word(i: usize, value: u32) -> [u8; BYTES] {
    let mut words = MARKED;
    if let Some(word) = words.get_mut(i) {
        *word = value;
    }
    bytes_of(words)
}

// The sheet up to its first office.
fn front(sheet: &[u8; BYTES]) -> [u8; FRONT_BYTES] {
    let mut bytes = [0u8; FRONT_BYTES];
    bytes.copy_from_slice(&sheet[..FRONT_BYTES]);
    bytes
}

// The marked sheet with office 0 alone.
fn one_office() -> [u8; FRONT_BYTES] {
    front(&with_word(OFFICES_AT, 1))
}

// The marked sheet without its last block, that of place 3: the office section moves up by its words.
fn without_last_block() -> [u8; SHORT_BYTES] {
    let sheet = &with_word(BLOCKS_AT, BLOCKS_LEFT);
    let mut bytes = [0u8; SHORT_BYTES];
    bytes[..LAST_BLOCK_AT].copy_from_slice(&sheet[..LAST_BLOCK_AT]);
    bytes[LAST_BLOCK_AT..].copy_from_slice(&sheet[LAST_BLOCK_AT + LAST_BLOCK_BYTES..]);
    bytes
}

fn say(rt: &impl Print, text: &str, number: u64) -> io::Result<()> {
    print!(rt; "{text}{number}")
}

fn end_line(rt: &impl Print) -> io::Result<()> {
    rt.println("")
}

// The number of a refusal, 0 where there is none.
fn due(rt: &impl Print, name: &str, refusal: Option<Refusal>) -> io::Result<()> {
    let number = refusal.map_or(0, u32::from);
    say(rt, name, u64::from(number))?;
    end_line(rt)
}

// The number of the layout.
fn laid(rt: &impl Print, name: &str, sheet: &[u8]) -> io::Result<()> {
    due(rt, name, layout(sheet).err())
}

// The number of the check.
fn checked(rt: &impl Print, name: &str, sheet: &[u8]) -> io::Result<()> {
    let mut distances = [0u32; PLACES * PLACES];
    due(rt, name, check(sheet, &mut distances).err())
}

// The words of so many answer lines. Taken by the iterator: the check does not find alone that a slice of so many lies within.
fn list(rt: &impl Print, answer: &[u64], words: usize) -> io::Result<()> {
    for (i, &word) in answer.iter().take(words).enumerate() {
        let before = if i % LINE_WORDS == 0 { "; " } else { " " };
        say(rt, before, word)?;
    }
    Ok(())
}

// A question's number, counts and list.
fn asked(
    rt: &impl Print,
    name: &str,
    sheet: &[u8],
    q: u32,
    k: u32,
    direction: u32,
) -> io::Result<()> {
    let mut answer = [0u64; LINE_WORDS * OFFICES];
    let mut working = [0u64; SLOT_WORDS * OFFICES];
    let reply = question(sheet, q, k, direction, &mut answer, &mut working);
    let (number, count, refinements) = match reply {
        Ok(listed) => (0, listed.count, listed.refinements),
        Err(refusal) => (u32::from(refusal), 0, 0),
    };
    say(rt, name, u64::from(number))?;
    say(rt, ", ", u64::from(count))?;
    say(rt, " listed, refinements ", refinements)?;
    list(rt, &answer, LINE_WORDS * count as usize)?;
    end_line(rt)
}

fn outward_questions(rt: &impl Print) -> io::Result<()> {
    let marked = with_word(0, PLACES as u32);
    asked(rt, "q = 2, k = 1: ", &marked, 2, 1, OUTWARD)?;
    asked(rt, "q = 2, k = 2: ", &marked, 2, 2, OUTWARD)?;
    asked(rt, "q = 2, k = 3: ", &marked, 2, 3, OUTWARD)?;
    asked(rt, "q = 2, k = 0: ", &marked, 2, 0, OUTWARD)?;
    asked(rt, "q = 2, k = 4: ", &marked, 2, 4, OUTWARD)?;
    asked(rt, "q = 4, k = 2: ", &marked, 4, 2, OUTWARD)?;
    asked(
        rt,
        "one office, q = 2, k = 1: ",
        &one_office(),
        2,
        1,
        OUTWARD,
    )
}

fn inward_questions(rt: &impl Print) -> io::Result<()> {
    let marked = with_word(0, PLACES as u32);
    asked(rt, "inward, q = 2, k = 1: ", &marked, 2, 1, INWARD)?;
    asked(rt, "inward, q = 2, k = 2: ", &marked, 2, 2, INWARD)?;
    asked(rt, "inward, q = 2, k = 3: ", &marked, 2, 3, INWARD)?;
    asked(rt, "inward, q = 2, k = 4: ", &marked, 2, 4, INWARD)?;
    asked(rt, "inward, q = 4, k = 2: ", &marked, 4, 2, INWARD)
}

fn neither_questions(rt: &impl Print) -> io::Result<()> {
    let marked = with_word(0, PLACES as u32);
    asked(rt, "direction 2, q = 2, k = 2: ", &marked, 2, 2, 2)?;
    asked(rt, "direction 2, q = 2, k = 0: ", &marked, 2, 0, 2)
}

// On one-way loops the two directions differ: the nearest to send to is the farthest to hear from.
fn loop_questions(rt: &impl Print) -> io::Result<()> {
    let loops = bytes_of(LOOPS);
    checked(rt, "one-way loops: check ", &loops)?;
    asked(rt, "one-way loops, q = 0, k = 3: ", &loops, 0, 3, OUTWARD)?;
    asked(
        rt,
        "one-way loops, inward, q = 0, k = 3: ",
        &loops,
        0,
        3,
        INWARD,
    )
}

fn layouts(rt: &impl Print) -> io::Result<()> {
    laid(rt, "x 1,023: layout ", &with_word(X_OF_PLACE_2, 1023))?;
    laid(rt, "x 1,024: layout ", &with_word(X_OF_PLACE_2, 1024))?;
    laid(
        rt,
        "gazetteer number 0 of place 3: layout ",
        &with_word(GAZETTEER_OF_PLACE_3, 0),
    )?;
    laid(
        rt,
        "gazetteer number 101 of place 3, as of place 0: layout ",
        &with_word(GAZETTEER_OF_PLACE_3, 101),
    )?;
    laid(
        rt,
        "gazetteer number 4,294,967,295 of place 3: layout ",
        &with_word(GAZETTEER_OF_PLACE_3, 4_294_967_295),
    )?;
    laid(
        rt,
        "length 65,535: layout ",
        &with_word(LENGTH_OF_STAGE_0, 65535),
    )?;
    laid(
        rt,
        "length 65,536: layout ",
        &with_word(LENGTH_OF_STAGE_0, 65536),
    )?;
    laid(rt, "level 10: layout ", &with_word(LEVEL_OF_BLOCK_5, 10))?;
    laid(rt, "level 11: layout ", &with_word(LEVEL_OF_BLOCK_5, 11))
}

fn checks(rt: &impl Print) -> io::Result<()> {
    checked(rt, "the marked sheet: check ", &with_word(0, PLACES as u32))?;
    checked(
        rt,
        "low ratio 65 of place 2: check ",
        &with_word(LOW_OF_BLOCK_5, 65),
    )?;
    checked(rt, "no block of place 3: check ", &without_last_block())
}

fn main(rt: HostRuntime) -> io::Result<()> {
    outward_questions(&rt)?;
    inward_questions(&rt)?;
    neither_questions(&rt)?;
    loop_questions(&rt)?;
    layouts(&rt)?;
    checks(&rt)
}
