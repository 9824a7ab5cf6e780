// What is written to the lent slice, and a look through the marks for a block without one.
ghost use Rattle.std.specs.Prelude.{◌≡◌, ◌*◌, ◌≤◌, ◌<◌, length};
ghost use Rattle.paper.specs.Sizes.{most_places};
ghost use Rattle.truth.specs.Table.{Stored, all_used};

// The mark of a block that some pair uses.
pub const USED: u8 = 1;

// The distance from u to v is word u × n + v.
pub fn store_column(distances: &mut [u32], n: usize, v: usize, column: &[u32])
    requires { (v < n) × (n ≤ most_places) × (n * n ≤ length distances.old) × (n ≤ length column.now) }
    ensures { Stored n v column.now distances.old distances.new }
{
    for (u, &distance) in column[..n].iter().enumerate() {
        distances[u * n + v] = distance;
    }
}

// Whether each block is marked.
pub fn all_marked(marks: &[u8]) -> bool
    ensures { result ≡ all_used (length marks.now) marks.now }
{
    marks.iter().all(|&mark| mark == USED)
}
