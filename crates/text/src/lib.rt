// What the program prints, written into a lent slice of bytes: each function writes one text and returns the position after it.
// A text has its position, and not a part of the slice for itself: for that each call would split the slice, and add up where the text ends.
// By hand: of the library's writers, `write!` promises its bytes to a `Vec` alone, which needs a heap, and of a slice it says nothing.
#![tactic(auto)]

ghost use Rattle.std.specs.Prelude.{◌≡◌, List, ◌∷◌, ℕ, ◌+◌, ◌*◌, ◌≤◌, ◌<◌, length, IfOk, IfErr};
ghost use Rattle.paper.specs.Sizes.{line_words};
ghost use Rattle.paper.specs.Printed.{decimal, after, line_text, refusal_text, list_text, reply_text};
ghost use Rattle.text.specs.Put.{Put, Written, count_of, reply_of};
ghost use Rattle.text.specs.Room.{reply_room};

use paper::Listed;
use paper::sizes::LINE_WORDS;

fn digit(n: u64) -> u8
    requires { n < 10 }
    ensures { result ≡ 48 + n }
{
    b'0' + n as u8
}

// How many digits n has.
fn width(n: u64) -> usize
    ensures { result ≡ length (decimal n) }
{
    let mut rest = n;
    let mut count = 1;
    while 10 <= rest {
        rest /= 10;
        count += 1;
    }
    count
}

// The digits of n between `at` and `end`, the last one first.
fn put_digits(out: &mut [u8], at: usize, end: usize, n: u64)
    requires { (end ≡ at + length (decimal n)) × (end ≤ length out.old) }
    ensures { Put at (decimal n) out.old out.new }
{
    let mut rest = n;
    for p in (at..end).rev() {
        out[p] = digit(rest % 10);
        rest /= 10;
    }
}

pub fn put_decimal(out: &mut [u8], at: usize, n: u64) -> usize
    requires { at + length (decimal n) ≤ length out.old }
    ensures { Written at (decimal n) out.old out.new result }
{
    let end = at + width(n);
    put_digits(out, at, end, n);
    end
}

// A space and the number.
fn put_next(out: &mut [u8], at: usize, n: u64) -> usize
    requires { at + length (32 ∷ decimal n) ≤ length out.old }
    ensures { Written at (32 ∷ decimal n) out.old out.new result }
{
    out[at] = b' ';
    put_decimal(out, at + 1, n)
}

// The numbers after the first of a line, and the line's end.
fn put_after(out: &mut [u8], at: usize, words: &[u64]) -> usize
    requires { at + length (after words.now) ≤ length out.old }
    ensures { Written at (after words.now) out.old out.new result }
{
    let mut next = at;
    for &word in words {
        next = put_next(out, next, word);
    }
    out[next] = b'\n';
    next + 1
}

// A line of the numbers.
pub fn put_numbers(out: &mut [u8], at: usize, words: &[u64]) -> usize
    requires some { 1 ≤ length words.now }
    requires words_in_bounds { at + length (line_text words.now) ≤ length out.old }
    ensures { Written at (line_text words.now) out.old out.new result }
{
    let next = put_decimal(out, at, words[0]);
    put_after(out, next, &words[1..])
}

// The lines of the k listed offices. By index and not by `chunks_exact`: where a line begins is said here, so that a line that begins elsewhere is refused.
pub fn put_list(out: &mut [u8], at: usize, answer: &[u64], k: usize) -> usize
    requires k_in_bounds { line_words * k ≤ length answer.now }
    requires answer_in_bounds { at + length (list_text k answer.now) ≤ length out.old }
    ensures { Written at (list_text k answer.now) out.old out.new result }
{
    let mut next = at;
    for i in 0..k {
        let first = LINE_WORDS * i;
        next = put_numbers(out, next, &answer[first..first + LINE_WORDS]);
    }
    next
}

fn put_bytes(out: &mut [u8], at: usize, text: &[u8]) -> usize
    requires { at + length text.now ≤ length out.old }
    ensures { Written at text.now out.old out.new result }
{
    let end = at + text.len();
    out[at..end].copy_from_slice(text);
    end
}

// Any number has a text, those that are no refusal of the core too: so it is a number and no `Refusal`.
pub fn put_refusal(out: &mut [u8], at: usize, number: u32) -> usize
    requires { at + length (refusal_text number) ≤ length out.old }
    ensures { Written at (refusal_text number) out.old out.new result }
{
    let next = put_bytes(out, at, b"refused ");
    let end = put_decimal(out, next, u64::from(number));
    out[end] = b'\n';
    end + 1
}

// A refusal; or the counts and the list. The text does not show the reply's working slice.
pub fn put_reply(out: &mut [u8], reply: Result<Listed, u32>, answer: &[u64]) -> usize
    requires count_in_bounds { reply_room (count_of reply) ≤ length out.old }
    requires count_in_bounds_2 { line_words * count_of reply ≤ length answer.now }
    ensures listed { IfOk reply (λ l. (working : List ℕ) → Written 0 (reply_text (reply_of 0 l.count l.refinements answer.now working)) out.old out.new result) }
    ensures refused { IfErr reply (λ number. Written 0 (refusal_text number) out.old out.new result) }
{
    match reply {
        Err(number) => put_refusal(out, 0, number),
        Ok(listed) => {
            let counts = [u64::from(listed.count), listed.refinements];
            let next = put_numbers(out, 0, &counts);
            put_list(out, next, answer, listed.count as usize)
        }
    }
}
