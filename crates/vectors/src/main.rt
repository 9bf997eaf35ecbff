// Draws again what the Rust drew. Standard input has cases as oracle/README.md describes them: a request, the words, and what the Rust
// did; or a word and its fraction. Writes the first few that differ where no entry of docs/DIFFERENCES.md says so; then how many cases of
// each kind there were and how many of them agree, how many differ by each entry, and how many others.
#![tactic(auto)]

mod cases;
mod compare;
mod kept;
mod single;
mod tally;

use cases::Unread;
use std::io::Read;
use tally::Tally;

// What is read at a time. No case goes over a block's end.
const BLOCK_WORDS: usize = 8_192;

const BLOCK_BYTES: usize = 65_536;

// Reads a block; at the input's end it is empty.
fn read_block<'a, R: Read>(
    reader: &mut R,
    words: &'a mut [u64; BLOCK_WORDS],
) -> Result<&'a [u64], Unread> {
    let mut bytes = [0u8; BLOCK_BYTES];
    let n = input::fill(reader, &mut bytes).map_err(|_| Unread)?;
    if n % 8 != 0 {
        return Err(Unread);
    }
    let count = n / 8;
    bytes_le::read_words(&bytes, count, words, 0);
    Ok(&words[..count])
}

// Draws the cases of every block again. A proved loop has to end, so this one has a number of turns that no run uses up; what would be left after
// them is unread.
fn draw_all<R: Read, P: Print>(reader: &mut R, tally: &mut Tally<P>) -> Result<(), Unread> {
    let mut words = [0u64; BLOCK_WORDS];
    for _ in 0..u64::MAX {
        let block = read_block(reader, &mut words)?;
        if block.is_empty() {
            return Ok(());
        }
        cases::draw_block(block, tally)?;
    }
    Err(Unread)
}

fn main(rt: HostRuntime) {
    let mut tally = Tally::new(&rt);
    match draw_all(&mut rt.stdin(), &mut tally) {
        Ok(()) => tally.report(),
        Err(Unread) => {
            let _ = println!(rt; "unread case");
        }
    }
}
