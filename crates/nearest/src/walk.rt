// The walk of an errand: the first intervals, then one step after the other until k offices are listed.
ghost use Rattle.std.specs.Prelude.{◌≡◌};
ghost use Rattle.paper.specs.Quest.{by_direction};

use crate::errand::Errand;
use crate::slices::{SIDE_WORDS, key, store, write_line};
use crate::tree::{put_back, take_leader};
use mintree::build;
use paper::sizes::OUTWARD;
use paper::{Refusal, Trail};
use quadtree::walk::{refine, start};
use sheet::places::gazetteer_of;
use sheet::word;

// One of two places: the first outward, and else the second. Any number is served, though only OUTWARD and INWARD name a direction: a caller of
// walk_mapped may ask with another, and every number but OUTWARD is inward.
fn by_direction(direction: u32, outward: usize, inward: usize) -> usize
    ensures { result ≡ by_direction direction outward inward }
{
    if direction == OUTWARD {
        return outward;
    }
    inward
}

impl<'a> Errand<'a> {
    ghost use Rattle.std.specs.Prelude.{◌≡◌, List, ◌+◌, ◌*◌, ◌≤◌, ◌<◌, length};
    ghost use Rattle.paper.specs.Sizes.{line_words, slot_words};
    ghost use Rattle.paper.specs.Refusal.{served_as};
    ghost use Rattle.paper.specs.Map.{Map};
    ghost use Rattle.paper.specs.Ground.{SameGround};
    ghost use Rattle.paper.specs.Trail.{start as start_of, refine as refine_of};
    ghost use Rattle.paper.specs.Bounds.{Sane};
    ghost use Rattle.paper.specs.Listing.{Slot, State, line_of, begin, run, enough, listing};
    ghost use Rattle.sheet.specs.Charts.{OnChart};
    ghost use Rattle.quadtree.specs.Walks.{trail_of};
    ghost use Rattle.nearest.specs.Working.{Shown, Beyond};
    ghost use Rattle.nearest.specs.Errands.{offices, places, ground_of, asked};
    ghost use Rattle.nearest.specs.Going.{Wrote, SomeMap, Fresh, Waiting, Begun, OneStarted, AllStarted, Stepped, Came};

    // The place at which office i of the list stands.
    fn stand(&self, i: usize) -> usize
        requires { i < offices self.now }
        ensures at { result ≡ (asked self.now).stand i }
        ensures placed { result < places self.now }
    {
        word(self.list, i) as usize
    }

    // The trail of office i before any refinement.
    fn first_trail(&self, i: usize) -> Result<Trail, Refusal>
        requires { i < offices self.now }
        ensures { served_as trail_of result ≡ start_of (ground_of self.now) ((asked self.now).from i) ((asked self.now).to i) }
    {
        let place = self.stand(i);
        let from = by_direction(self.quest.direction, self.quest.place, place);
        let to = by_direction(self.quest.direction, place, self.quest.place);
        start(&self.chart.ground, from, to)
    }

    // The trail t of office i after one refinement, on any map that has the chart. That there is one is asked, by what calls this too, and not kept by
    // `Errand`: it is a map with a proof, and a type keeps propositions.
    fn next_trail(&self, i: usize, t: Trail) -> Result<Trail, Refusal>
        requires charted { SomeMap self.now.chart }
        requires i_lt_offices { (i < offices self.now) × (Sane (places self.now) (trail_of t)) }
        ensures { (m : Map) → OnChart self.now.chart m → served_as trail_of result ≡ refine_of m ((asked self.now).to i) (trail_of t) }
    {
        let place = self.stand(i);
        let sought = by_direction(self.quest.direction, place, self.quest.place);
        refine(&self.chart, sought, t)
    }

    // The first interval of office i, in the working slice.
    fn set_out(&self, i: usize, working: &mut [u64]) -> Result<(), Refusal>
        requires { (i < offices self.now) × (slot_words * offices self.now ≤ length working.old) }
        ensures beyond { Beyond (slot_words * offices self.now) working.old working.new }
        ensures one_started { OneStarted (ground_of self.now) (asked self.now) i working.old working.new result }
    {
        let n = self.chart.ground.counts.offices;
        let first = self.first_trail(i)?;
        store(working, i, first);
        working[SIDE_WORDS * n + n + i] = key(first.low, i);
        Ok(())
    }

    // The first intervals in office order.
    fn set_out_all(&self, working: &mut [u64]) -> Result<(), Refusal>
        requires { (1 ≤ offices self.now) × (slot_words * offices self.now ≤ length working.old) }
        ensures beyond { Beyond (slot_words * offices self.now) working.old working.new }
        ensures all_started { AllStarted (ground_of self.now) (asked self.now) working.new result }
    {
        let n = self.chart.ground.counts.offices;
        for i in 0..n {
            self.set_out(i, working)?;
        }
        build(&mut working[SIDE_WORDS * n..], n);
        Ok(())
    }

    // One step: the leader is listed, or refined once and nobody is listed.
    fn advance(&self, working: &mut [u64]) -> Result<Option<(usize, Trail)>, Refusal>
        requires charted { SomeMap self.now.chart }
        requires waiting { Waiting (places self.now) (offices self.now) working.old }
        ensures beyond { Beyond (slot_words * offices self.now) working.old working.new }
        ensures stepped { (m : Map) → OnChart self.now.chart m → (st : State) → Shown (places self.now) (offices self.now) working.old st.slots → Stepped m (asked self.now) st working.new result }
    {
        let n = self.chart.ground.counts.offices;
        let lead = take_leader(working, n);
        if lead.clear {
            return Ok(Some((lead.number, lead.trail)));
        }
        let next = self.next_trail(lead.number, lead.trail)?;
        put_back(working, n, lead.number, next);
        Ok(None)
    }

    // Lists office i with the trail t, as line r of the answer.
    fn list_office(&self, i: usize, t: Trail, r: usize, answer: &mut [u64])
        requires { (i < offices self.now) × (line_words * r + line_words ≤ length answer.old) }
        ensures { (m : Map) → SameGround m (ground_of self.now) → Wrote r (line_of m (asked self.now) i (trail_of t)) answer.old answer.new }
    {
        let place = self.stand(i);
        let gazetteer = gazetteer_of(self.chart.ground.bytes, place);
        write_line(answer, r, i, t, gazetteer);
    }

    // Steps until k are listed. It stays a `while`, since a turn that refines lists nobody.
    fn list_nearest(
        &self,
        k: usize,
        answer: &mut [u64],
        working: &mut [u64],
    ) -> Result<u64, Refusal>
        requires charted { SomeMap self.now.chart }
        requires begun { Begun (places self.now) (offices self.now) working.old }
        requires k_le_offices { (k ≤ offices self.now) × (line_words * k ≤ length answer.old) }
        ensures beyond { Beyond (slot_words * offices self.now) working.old working.new }
        ensures came { (m : Map) → OnChart self.now.chart m → (ss : List Slot) → Shown (places self.now) (offices self.now) working.old ss → Fresh (offices self.now) ss → Came k (run m (asked self.now) (enough m (asked self.now) k) k (begin ss)) answer.old answer.new result }
    {
        let mut listed = 0;
        let mut total = 0;
        while listed < k {
            match self.advance(working)? {
                Some((number, trail)) => {
                    self.list_office(number, trail, listed, answer);
                    listed += 1;
                }
                None => {
                    total += 1;
                }
            }
        }
        Ok(total)
    }

    // The listing of k offices, on any map that has the chart, with the total of refinements.
    pub fn walk(&self, k: usize, answer: &mut [u64], working: &mut [u64]) -> Result<u64, Refusal>
        requires charted { SomeMap self.now.chart }
        requires one_le_k { (1 ≤ k) × (k ≤ offices self.now) × (line_words * k ≤ length answer.old) × (slot_words * offices self.now ≤ length working.old) }
        ensures beyond { Beyond (slot_words * offices self.now) working.old working.new }
        ensures came { (m : Map) → OnChart self.now.chart m → Came k (listing m (asked self.now) k) answer.old answer.new result }
    {
        self.set_out_all(working)?;
        self.list_nearest(k, answer, working)
    }
}
