// From the input's bytes to the bytes that are printed.
ghost use Rattle.std.specs.Prelude.{◌≡◌, ◌≤◌, length, IfOk, IfErr};
ghost use Rattle.paper.specs.Refusal.{number_of, number};
ghost use Rattle.paper.specs.Sizes.{program_offices};
ghost use Rattle.paper.specs.Printed.{unfit as unfitOf, sheet_in, refusal_text, reply_text, program_reply, Printed};
ghost use Rattle.text.specs.Put.{Written};
ghost use Rattle.text.specs.Room.{reply_room};
ghost use Rattle.desk.specs.Serve.{Judged, Serves};

use nearest::question;
use paper::Refusal;
use paper::sizes::{
    ASKED_BYTES, LINE_WORDS, PROGRAM_BYTES, PROGRAM_OFFICES, PROGRAM_PLACES, SLOT_WORDS,
};
use sheet::{layout, word};
use text::{put_refusal, put_reply};
use truth::check;

// Words of the slices that the program lends.
const DISTANCES: usize = PROGRAM_PLACES * PROGRAM_PLACES;

const ANSWER: usize = LINE_WORDS * PROGRAM_OFFICES;

const WORKING: usize = SLOT_WORDS * PROGRAM_OFFICES;

// The input's size (20), the layout (1 to 6), the limits on places and offices (20).
fn unfit(input: &[u8]) -> Result<(), Refusal>
    ensures { number result ≡ unfitOf input.now }
{
    if input.len() < ASKED_BYTES || ASKED_BYTES + PROGRAM_BYTES < input.len() {
        return Err(Refusal::TooLarge);
    }
    let counts = layout(&input[ASKED_BYTES..])?.map.counts;
    if PROGRAM_PLACES < counts.places || PROGRAM_OFFICES < counts.offices {
        return Err(Refusal::TooLarge);
    }
    Ok(())
}

// The check, on a slice of the program's own.
fn judge(sheet: &[u8]) -> Result<(), Refusal>
    ensures { Judged sheet.now (number result) }
{
    let mut distances = [0u32; DISTANCES];
    check(sheet, &mut distances)
}

// What an input has to pass before its question is asked.
fn pass(input: &[u8]) -> Result<(), Refusal>
    ensures passed { IfOk result (λ _. (unfitOf input.now ≡ 0) × Judged (sheet_in input.now) 0) }
    ensures refused { IfErr result (λ r. Printed input.now (refusal_text (number_of r))) }
{
    unfit(input)?;
    judge(&input[ASKED_BYTES..])
}

// The list, or the refusal of a question on an accepted sheet. The check's slice is gone before these two are there.
fn ask(input: &[u8], output: &mut [u8]) -> usize
    requires { (unfitOf input.now ≡ 0) × (reply_room program_offices ≤ length output.old) }
    ensures { Written 0 (reply_text (program_reply input.now)) output.old output.new result }
{
    let mut answer = [0u64; ANSWER];
    let mut working = [0u64; WORKING];
    let q = word(input, 0);
    let k = word(input, 1);
    let direction = word(input, 2);
    let reply = question(
        &input[ASKED_BYTES..],
        q,
        k,
        direction,
        &mut answer,
        &mut working,
    );
    put_reply(output, reply.map_err(u32::from), &answer)
}

// The text for an input, and how long it is.
pub fn serve(input: &[u8], output: &mut [u8]) -> usize
    requires { reply_room program_offices ≤ length output.old }
    ensures { Serves input.now output.old output.new result }
{
    match pass(input) {
        Ok(()) => ask(input, output),
        Err(refusal) => put_refusal(output, 0, u32::from(refusal)),
    }
}
