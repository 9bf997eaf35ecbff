// Bytes from a reader, an error told from the end. What a file gives no contract can say; how many bytes of the buffer it fills, this does.
#![tactic(auto)]

ghost use Rattle.std.specs.Prelude.{◌≡◌, ℕ, ◌≤◌, ◌<◌, length, take, IfOk, OnErr, Ok};
ghost use Rattle.std.specs.Io.KnownBytes.{Consumes, IsAtEnd};

use std::io;
use std::io::Read;

// Reads until `buf` is full or the input ends, and answers how many bytes it read. Where `buf` has no room, it reads nothing, and can't
// fail. An error is the reader's own, and ends the reading: what was read before it is at the front of `buf`, but nothing tells how much.
#[tactic(auto, using(crate::proofs::Filling::consumed_behind))]
pub fn fill<R: Read>(reader: &mut R, buf: &mut [u8]) -> io::Result<usize>
    ensures within { IfOk result (λ n. n ≤ length buf.new) }
    ensures no_room { length buf.new ≡ 0 → result ≡ Ok 0 }
    ensures bytes { IfOk result (λ n. Consumes (R.remaining reader.old) (R.remaining reader.new) (take n buf.new)) }
    ensures end { IfOk result (λ n. n < length buf.new → IsAtEnd (R.remaining reader.new)) }
    ensures err { OnErr result ((n : ℕ) × (n < length buf.new) × Consumes (R.remaining reader.old) (R.remaining reader.new) (take n buf.new)) }
{
    // the loop counts bytes by itself: how many a read gives is known only after it
    let mut have = 0;
    while have < buf.len() {
        match reader.read(&mut buf[have..])? {
            0 => break,
            n => have += n,
        }
    }
    Ok(have)
}
