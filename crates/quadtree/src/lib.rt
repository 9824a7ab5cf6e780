// The quadtrees of a ground: the block that covers a place, the interval between two places, and, over a book, one refinement.
#![tactic(auto)]

pub mod blocks;
pub mod interval;
pub mod walk;
