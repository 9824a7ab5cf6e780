// What a ground and a map that is read off the bytes give: a block, the ground of a map, and its road book.
use crate::blocks::{Block, read_block};
use crate::book::{column, starts};
use crate::ground::{Ground, Mapped};
use crate::{blocks_at, stages_at};

impl<'a> Ground<'a> {
    ghost use Rattle.std.specs.Prelude.{◌<◌};
    ghost use Rattle.paper.specs.Sheet.{map_of};
    ghost use Rattle.sheet.specs.Records.{BlockIs};

    // The record of the block b.
    pub fn block(&self, b: usize) -> Block
        requires { b < self.now.counts.blocks }
        ensures { BlockIs (map_of self.now.bytes.now) b result }
    {
        read_block(self.bytes, blocks_at(self.counts), b)
    }
}

impl<'a> Mapped<'a> {
    ghost use Rattle.std.specs.Prelude.{◌≡◌};
    ghost use Rattle.paper.specs.Sheet.{map_of};
    ghost use Rattle.sheet.specs.Book.{Book, Roomy, Past};

    // What the core reads of it.
    pub fn ground(&self) -> Ground<'a>
        ensures bytes { result.bytes.now ≡ self.now.bytes.now }
        ensures counts { result.counts ≡ self.now.counts }
    {
        Ground {
            bytes: self.bytes,
            counts: self.counts,
        }
    }

    // The road book: where the stages of each place begin, and their tails, heads and lengths. In four slices, see `Chart`.
    pub fn road_book(
        &self,
        first: &mut [u32],
        tails: &mut [u32],
        heads: &mut [u32],
        lengths: &mut [u32],
    )
        requires { Roomy self.now.counts first.old tails.old heads.old lengths.old }
        ensures book { Book (map_of self.now.bytes.now) first.new tails.new heads.new lengths.new }
        ensures past { Past self.now.counts first.old tails.old heads.old lengths.old first.new tails.new heads.new lengths.new }
    {
        let stages = self.counts.stages;
        let at = stages_at(self.counts) + 1;
        let tails = &mut tails[..stages];
        column(self.bytes, at, tails);
        column(self.bytes, at + 1, &mut heads[..stages]);
        column(self.bytes, at + 2, &mut lengths[..stages]);
        starts(tails, &mut first[..self.counts.places]);
    }
}
