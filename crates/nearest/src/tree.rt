// The leader, by the tree of low ends in the working slice.
ghost use Rattle.std.specs.Prelude.{List, ℕ, ◌*◌};
ghost use Rattle.paper.specs.Sizes.{slot_words};
ghost use Rattle.paper.specs.Listing.{Slot, retired, refined};
ghost use Rattle.paper.specs.Bounds.{Sane};
ghost use Rattle.nearest.specs.Working.{Shown, Beyond};
ghost use Rattle.quadtree.specs.Walks.{trail_of};
ghost use Rattle.nearest.specs.Going.{SomeWaits, Led, OneOut};

use crate::slices::{PACK, SIDE_WORDS, key, store, trail_at};
use mintree::{change, top};
use paper::{Network, Trail};

// The word of an office that no longer waits.
const GONE: u64 = 0xffff_ffff_ffff_ffff;

// A leader: its number and trail, and whether its high end and number come before everybody else's low end and number.
#[derive(Clone, Copy)]
pub struct Lead {
    pub number: usize,
    pub trail: Trail,
    pub clear: bool,
}

// Takes the leader out of the tree, so that the least word left is that of the leader of the rest. The tree stands behind the other words of n offices.
pub fn take_leader(working: &mut [u64], n: usize) -> Lead
    requires { SomeWaits n working.old }
    ensures beyond { Beyond (slot_words * n) working.old working.new }
    ensures by_index { (places : ℕ) (ss : List Slot) → Shown places n working.old ss → Led places n ss working.new result }
{
    let least = top(&working[SIDE_WORDS * n..], n);
    let number = (least % PACK) as usize;
    let trail = trail_at(working, number, Network(least / PACK));
    let tree = &mut working[SIDE_WORDS * n..];
    change(tree, n, number, GONE);
    let rest = top(tree, n);
    Lead {
        number,
        trail,
        clear: key(trail.high, number) < rest,
    }
}

// Puts office i, which was taken out, back into the tree with the trail t.
pub fn put_back(working: &mut [u64], n: usize, i: usize, t: Trail)
    requires { OneOut n i working.old (trail_of t) }
    ensures beyond { Beyond (slot_words * n) working.old working.new }
    ensures by_index { (places : ℕ) (ss : List Slot) → Shown places n working.old (retired ss i) → Sane places (trail_of t) → Shown places n working.new (refined ss i (trail_of t)) }
{
    store(working, i, t);
    change(&mut working[SIDE_WORDS * n..], n, i, key(t.low, i));
}
