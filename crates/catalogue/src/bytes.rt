// Words written into the host's bytes, low byte first.
ghost use Rattle.std.specs.Prelude.{◌≡◌, List, ℕ, ◌+◌, ◌*◌, ◌≤◌, ◌<◌, length};
ghost use Rattle.paper.specs.Sizes.{word_bytes, long_bytes, most_places};
ghost use Rattle.paper.specs.Words.{bytes_of, written};
ghost use Rattle.text.specs.Put.{Put};
ghost use Rattle.truth.specs.Table.{StoredIn};

use paper::sizes::{LONG_BYTES, WORD_BYTES};

// The four bytes of x, from byte `at` on.
pub fn put_word(bytes: &mut [u8], at: usize, x: u32)
    requires { at + word_bytes ≤ length bytes.old }
    ensures { Put at (bytes_of word_bytes x) bytes.old bytes.new }
{
    bytes[at..at + WORD_BYTES].copy_from_slice(&x.to_le_bytes());
}

// The eight bytes of x, from byte `at` on.
pub fn put_long(bytes: &mut [u8], at: usize, x: u64)
    requires { at + long_bytes ≤ length bytes.old }
    ensures { Put at (bytes_of long_bytes x) bytes.old bytes.new }
{
    bytes[at..at + LONG_BYTES].copy_from_slice(&x.to_le_bytes());
}

// The words of 64 bits, from the first byte on.
pub fn put_longs(bytes: &mut [u8], words: &[u64])
    requires { long_bytes * length words.now ≤ length bytes.old }
    ensures { bytes.new ≡ written long_bytes words.now bytes.old }
{
    for (i, &word) in words.iter().enumerate() {
        put_long(bytes, LONG_BYTES * i, word);
    }
}

// The distance from u to v is word u × n + v.
pub fn store_column(bytes: &mut [u8], n: usize, v: usize, column: &[u32])
    requires { (v < n) × (n ≤ most_places) × (word_bytes * (n * n) ≤ length bytes.old) × (n ≤ length column.now) }
    ensures { (words b : List ℕ) → n * n ≤ length words → word_bytes * length words ≤ length b → bytes.old ≡ written word_bytes words b → StoredIn (written word_bytes) n v column.now words b bytes.new }
{
    for (u, &distance) in column[..n].iter().enumerate() {
        put_word(bytes, WORD_BYTES * (u * n + v), distance);
    }
}
