// Whether words differ from each other. Each word but the first hangs under an earlier one, in a tree of digits: below word p, the words whose next
// digit is d begin at kids[WAYS * p + d], and 0 says that there are none. So a word is sought among all before it in no more steps than it has digits.
#![tactic(auto)]

ghost use Rattle.std.specs.Prelude.{◌≡◌, true, not, ◌+◌, ◌≤◌, ◌<◌, length};
ghost use Rattle.paper.specs.Sizes.{most_places};
ghost use Rattle.paper.specs.Test.{every, apart};
ghost use Rattle.differ.specs.Tree.{same, Hung};

use paper::sizes::MOST_PLACES;

// Digits are of three bits, the lowest first, and there is a way down from a word for each.
const DIGITS: u32 = 8;

const WAYS: usize = DIGITS as usize;

// Whether word i differs from each before it; if so, it is hung into their tree.
// The tree's links are indices into a lent array, since there is no heap and memory is fixed: so the walk goes by index.
#[tactic(auto, using(crate::proofs::Hanging::ways_down))]
fn is_new(words: &[u32], i: usize, kids: &mut [u16]) -> bool
    requires le_i { (1 ≤ i) × (i < length words.now) × (i < most_places) }
    requires hung { Hung words.now i kids.old }
    ensures value { result ≡ every i (λ j. not (same words.now j i)) }
    ensures hung_2 { result ≡ true → Hung words.now (i + 1) kids.new }
{
    let word = words[i];
    let mut digits = word;
    let mut p = 0;
    while words[p] != word {
        let at = WAYS * p + (digits % DIGITS) as usize;
        let next = usize::from(kids[at]);
        if next == 0 {
            kids[at] = i as u16;
            return true;
        }
        p = next;
        digits /= DIGITS;
    }
    false
}

// Whether no two of the words are the same.
pub fn all_differ(words: &[u32]) -> bool
    requires { length words.now ≤ most_places }
    ensures { result ≡ apart (length words.now) (same words.now) }
{
    let mut kids = [0u16; WAYS * MOST_PLACES];
    for i in 1..words.len() {
        if !is_new(words, i, &mut kids) {
            return false;
        }
    }
    true
}
