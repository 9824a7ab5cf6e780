// What a table of road distances stands in: words here, and a host's bytes in the crate catalogue.
ghost use Rattle.std.specs.Prelude.{◌≡◌, List, ◌++◌, ℕ, ◌*◌, ◌≤◌, ◌<◌, length, drop};
ghost use Rattle.paper.specs.Sizes.{most_places};
ghost use Rattle.paper.specs.Slice.{cleared};
ghost use Rattle.truth.specs.Table.{StoredIn, over};
ghost use Rattle.std.proofs.Common.{arith, length-append, length-drop};

use crate::slices::store_column;

// A way to keep words in a lent slice of U: `held` are the words that stand whole in it, `written` is the slice once words are written at its start.
// A table of n places takes the first n × n; its slice may hold more, and n tells its rows apart.
pub trait Table<U> {
    ghost held: { List U → List ℕ };

    ghost written: { List ℕ → List U → List U };

    // How many words stand whole in the slice.
    fn room(slice: &[U]) -> usize
        ensures room { result ≡ length (held slice.now) }
        ensures whole { slice.now ≡ written (held slice.now) slice.now };

    // The first n words become 0.
    fn clear(slice: &mut [U], n: usize)
        requires { n ≤ length (held slice.old) }
        ensures { (words : List ℕ) (b : List U) → n ≤ length words → length words ≡ length (held b) → slice.old ≡ written words b → slice.new ≡ written (cleared n words) b };

    // The distance from u to v is word u × n + v.
    fn store_column(slice: &mut [U], n: usize, v: usize, column: &[u32])
        requires { (v < n) × (n ≤ most_places) × (n * n ≤ length (held slice.old)) × (n ≤ length column.now) }
        ensures { (words : List ℕ) (b : List U) → n * n ≤ length words → length words ≡ length (held b) → slice.old ≡ written words b → StoredIn written n v column.now words b slice.new };

    ghost kept: { (words : List ℕ) (b : List U) → length words ≡ length (held b) → length (held (written words b)) ≡ length (held b) };
}

// Words in a slice of words.
pub struct Words;

impl Table<u32> for Words {
    ghost held = { λ l. l };

    ghost written = { over };

    ghost kept = { λ words b e. omega (arith, length-append words (drop (length words) b), length-drop (length words) b) };

    fn room(slice: &[u32]) -> usize {
        slice.len()
    }

    fn clear(slice: &mut [u32], n: usize) {
        slice[..n].fill(0);
    }

    fn store_column(slice: &mut [u32], n: usize, v: usize, column: &[u32]) {
        store_column(slice, n, v, column);
    }
}
