// The length of the shortest road to one place from every place: Dijkstra's method backwards, over a min-tree of packed words.
#![tactic(auto)]

ghost use Rattle.std.specs.Prelude.{◌≡◌, ℕ, ◌+◌, ◌≤◌, ◌<◌, length, get_or};
ghost use Rattle.paper.specs.Sizes.{most_places, most_furlongs};
ghost use Rattle.paper.specs.Map.{Map};
ghost use Rattle.paper.specs.Slice.{Untouched};
ghost use Rattle.mintree.specs.Mintree.{Played};
ghost use Rattle.roads.specs.Chain.{Chainable, Chained, Starts, GoesOn};
ghost use Rattle.roads.specs.Towards.{far, Towards, Ready, Entered, Lists};
ghost use Rattle.roads.specs.Search.{Lowered, Halfway, After, Sound, Visit};

mod roads;

use mintree::{build, change, top};
use paper::Network;
use paper::sizes::MOST_PLACES;
pub use roads::Roads;

// The length of a place from which no road is known: above every road distance.
pub const FAR: u32 = 2_147_483_647;

// A place's word in the min-tree is its length * PACK + its number, which is below PACK.
const PACK: u64 = MOST_PLACES as u64;

// The word of a place that is settled, or from which no road is known, but for the number.
const NONE: u64 = FAR as u64 * PACK;

// Two words in the min-tree for each place.
const WORDS: usize = 2 * MOST_PLACES;

// The distance d and a stage more.
fn onward(d: Network, stage: Network) -> Network
    requires { (d.0 < far) × (stage.0 ≤ most_furlongs) }
    ensures { result.0 ≡ d.0 + stage.0 }
{
    Network(d.0 + stage.0)
}

// The stages into each place as a chain: last[w] is one more than the number of the last stage into w, and previous[i] than that of the
// one before i into the same place; 0 where there is none. The n places are the first of slices that may be longer, here and below.
pub fn chain(heads: &[u32], n: usize, last: &mut [u32], previous: &mut [u32])
    requires { Chainable heads.now n last.old previous.old }
    ensures { Chained heads.now n last.old previous.old last.new previous.new }
{
    last[..n].fill(0);
    for (i, &head) in heads.iter().enumerate() {
        let w = head as usize;
        previous[i] = last[w];
        last[w] = i as u32 + 1;
    }
}

// The length of u is y, if that is less than it was.
fn lower(column: &mut [u32], words: &mut [u64], n: usize, u: usize, y: Network)
    requires u_lt_n { (u < n) × (n ≤ most_places) × (n ≤ length column.old) }
    requires played { Played words.old 0 n }
    ensures { Lowered n u y.0 column.old words.old column.new words.new }
{
    if y.0 < Network::from(column[u]).0 {
        column[u] = y.0 as u32;
        change(words, n, u, y.0 * PACK + u as u64);
    }
}

// No place is settled, and v alone has a length.
fn start(column: &mut [u32], words: &mut [u64], n: usize, v: usize)
    requires { (v < n) × (n ≤ most_places) × (n ≤ length column.old) × (n + n ≤ length words.old) }
    ensures halfway { Halfway n 0 column.new words.new }
    ensures untouched { Untouched n column.old column.new }
    ensures by_index { (m : Map) → ((i : ℕ) → i < m.stages → m.head i < n) → Sound m n v 0 0 0 column.new words.new }
{
    column[..n].fill(FAR);
    for (u, word) in words[n..2 * n].iter_mut().enumerate() {
        *word = NONE + u as u64;
    }
    column[v] = 0;
    words[n + v] = v as u64;
    build(words, n);
}

impl Roads<'_> {
    // Goes through the chain from the stage numbered one less than `from`. It leads to a place at the distance d.
    // A chain is stage numbers inside slices, and not linked nodes, since there is no heap and the memory is fixed.
    fn spread(&self, from: usize, d: Network, column: &mut [u32], words: &mut [u64])
        requires from_in_bounds { from ≤ length self.now.tails.now }
        requires halfway { Halfway self.now.places d.0 column.old words.old }
        ensures after { After self.now.places d.0 column.old words.old d.0 column.new words.new }
        ensures visit { (m : Map) (v p : ℕ) → Lists m self.now.tails.now self.now.lengths.now self.now.places → GoesOn m.head m.stages self.now.previous.now → Visit m self.now.places v d.0 p from column.old words.old → Visit m self.now.places v d.0 p 0 column.new words.new }
    {
        let mut j = from;
        while j > 0 {
            let i = j - 1;
            let y = onward(d, Network::from(self.lengths[i]));
            lower(column, words, self.places, self.tails[i] as usize, y);
            j = self.previous[i] as usize;
        }
    }

    // Settles the nearest place that is not, until no place with a road is left.
    fn settle(&self, column: &mut [u32], words: &mut [u64])
        requires halfway { Halfway self.now.places 0 column.old words.old }
        ensures untouched { Untouched self.now.places column.old column.new }
        ensures towards { (m : Map) (v : ℕ) → Lists m self.now.tails.now self.now.lengths.now self.now.places → Starts m.head self.now.places m.stages self.now.last.now → GoesOn m.head m.stages self.now.previous.now → Sound m self.now.places v 0 0 0 column.old words.old → Towards m self.now.places v (λ u. get_or column.new u 0) }
    {
        loop {
            let t = top(words, self.places);
            if t >= NONE {
                return;
            }
            let p = (t % PACK) as usize;
            change(words, self.places, p, NONE + p as u64);
            self.spread(self.last[p] as usize, Network(t / PACK), column, words);
        }
    }

    // column[u] is the road distance from u to v, and FAR where there is no road. The chains are those that `chain` leaves.
    pub fn towards(&self, v: usize, column: &mut [u32])
        requires { (v < self.now.places) × (self.now.places ≤ length column.old) }
        ensures untouched { Untouched self.now.places column.old column.new }
        ensures towards { (m : Map) → Lists m self.now.tails.now self.now.lengths.now self.now.places → Starts m.head self.now.places m.stages self.now.last.now → GoesOn m.head m.stages self.now.previous.now → Towards m self.now.places v (λ u. get_or column.new u 0) }
    {
        let mut words = [0u64; WORDS];
        start(column, &mut words, self.places, v);
        self.settle(column, &mut words);
    }
}
