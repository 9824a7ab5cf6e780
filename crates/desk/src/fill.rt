// Reading into a slice that is lent.
ghost use Rattle.std.specs.Prelude.{◌≤◌, ◌<◌, length, take, IfOk, IfErr, ℕ};
ghost use Rattle.std.specs.Io.KnownBytes.{Consumes, IsAtEnd};

use std::io;
use std::io::Read;

// Reads until the slice is full or the input ends, and gives how many bytes came. A read that fails ends it: what came before stands in the slice.
// The library's read_exact does not say how many came where the input is shorter, and its read_to_end needs a heap.
pub fn fill<R: Read>(reader: &mut R, bytes: &mut [u8]) -> io::Result<usize>
    ensures room { IfOk result (λ n. n ≤ length bytes.new) }
    ensures bytes { IfOk result (λ n. Consumes (R.remaining reader.old) (R.remaining reader.new) (take n bytes.new)) }
    ensures end { IfOk result (λ n. n < length bytes.new → IsAtEnd (R.remaining reader.new)) }
    ensures err { IfErr result (λ _. (n : ℕ) × Consumes (R.remaining reader.old) (R.remaining reader.new) (take n bytes.new)) }
{
    let mut filled = 0;
    while filled < bytes.len() {
        let read = reader.read(&mut bytes[filled..])?;
        if read == 0 {
            return Ok(filled);
        }
        filled += read;
    }
    Ok(filled)
}
