// The check's table in the host's bytes.
ghost use Rattle.std.specs.Prelude.{List, ℕ, ◌≡◌, length};
ghost use Rattle.paper.specs.Sizes.{word_bytes};
ghost use Rattle.paper.specs.Words.{words_held, written};
ghost use Rattle.paper.proofs.Words.{held_kept};

use crate::bytes::store_column;
use paper::sizes::WORD_BYTES;
use truth::table::Table;

// Words of 32 bits in a slice of bytes, low byte first.
pub struct HostBytes;

impl Table<u8> for HostBytes {
    ghost held = { words_held };

    ghost written = { λ words bytes. written word_bytes words bytes };

    ghost kept = { held_kept };

    fn room(slice: &[u8]) -> usize {
        slice.len() / WORD_BYTES
    }

    fn clear(slice: &mut [u8], n: usize) {
        slice[..WORD_BYTES * n].fill(0);
    }

    fn store_column(slice: &mut [u8], n: usize, v: usize, column: &[u32]) {
        store_column(slice, n, v, column);
    }
}
