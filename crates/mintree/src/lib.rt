// The least of n words under changes of single words, inside one slice that the caller lends. It is a tournament: the words stand at
// words[n .. 2 n], and words[p], for each node p of 1 .. n, is the lesser of those at 2 p and 2 p + 1. words[0] and what lies behind the
// 2 n words are not used. To know whose word is the least, a caller packs the index into it, below the key. n is a parameter, since callers lend
// the rest of a longer slice: one of the tree alone would put half a length into every clause, and a cut at each call.
#![tactic(auto)]

ghost use Rattle.std.specs.Prelude.{◌+◌, ◌<◌, set};
ghost use Rattle.mintree.specs.Mintree.{Room, Played, Least, Same};

// Plays every match, from the last node to the first.
#[tactic(auto, using(crate::proofs::Nodes::built_start, crate::proofs::Nodes::built_step, crate::proofs::Nodes::built_end))]
pub fn build(words: &mut [u64], n: usize)
    requires { Room words.old 0 n }
    ensures same { Same 0 n words.old words.new }
    ensures played { Played words.new 0 n }
{
    for p in (1..n).rev() {
        words[p] = words[2 * p].min(words[2 * p + 1]);
    }
}

// Stores the word x at the index i, and plays the matches again from there to the first node.
#[tactic(auto, using(crate::proofs::Nodes::loose_start, crate::proofs::Nodes::loose_step, crate::proofs::Nodes::loose_end))]
pub fn change(words: &mut [u64], n: usize, i: usize, x: u64)
    requires i_lt_n { i < n }
    requires played { Played words.old 0 n }
    ensures same { Same 0 n (set words.old (n + i) x) words.new }
    ensures played_2 { Played words.new 0 n }
{
    let mut p = n + i;
    let mut won = x;
    words[p] = won;
    while 1 < p {
        // the other node below the same one is p + 1 for an even p, and p - 1 for an odd one
        won = won.min(words[p + 1 - 2 * (p % 2)]);
        p /= 2;
        words[p] = won;
    }
}

// The least of the words.
#[tactic(auto, using(crate::proofs::Laws::least_of))]
pub fn top(words: &[u64], n: usize) -> u64
    requires { Played words.now 0 n }
    ensures { Least words.now 0 n result }
{
    words[1]
}
