// What fills the road book.
ghost use Rattle.std.specs.Prelude.{ℕ, ◌≡◌, ◌+◌, ◌*◌, ◌≤◌, ◌<◌, length, get_or};
ghost use Rattle.paper.specs.Sizes.{stage_words, most_stages};
ghost use Rattle.paper.specs.Sheet.{word as word_of};
ghost use Rattle.sheet.specs.Book.{Begins, Ascending};

use crate::word;
use paper::sizes::STAGE_WORDS;

// One word of each stage record, the first at word `base`, into a slice of as many.
pub fn column(sheet: &[u8], base: usize, out: &mut [u32])
    requires { (i : ℕ) → i < length out.old → 4 * (base + stage_words * i) + 4 ≤ length sheet.now }
    ensures { (i : ℕ) → i < length out.new → get_or out.new i 0 ≡ word_of sheet.now (base + stage_words * i) }
{
    for (i, to) in out.iter_mut().enumerate() {
        *to = word(sheet, base + STAGE_WORDS * i);
    }
}

// Where the stages that leave the place u begin, by the tails, which ascend: one way through those below u. The call is kept: in the caller's loop the
// compiler would go through several places at once where there is one stage, by constants of its own, and a handset has little room for constants.
#[inline(never)]
fn first_from(tails: &[u32], u: usize) -> usize
    requires { Ascending tails.now (length tails.now) }
    ensures { Begins tails.now (length tails.now) u result }
{
    tails
        .iter()
        .take_while(|&&tail| (tail as usize) < u)
        .count()
}

// The same for each place: each goes on where the place before ended, so that all go through the tails once.
pub fn starts(tails: &[u32], first: &mut [u32])
    requires few { length tails.now ≤ most_stages }
    requires ascending { Ascending tails.now (length tails.now) }
    ensures { (u : ℕ) → u < length first.new → Begins tails.now (length tails.now) u (get_or first.new u 0) }
{
    let mut i = 0;
    for (u, begin) in first.iter_mut().enumerate() {
        i += first_from(&tails[i..], u);
        *begin = i as u32;
    }
}
