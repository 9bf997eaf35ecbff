// The tape: a file of 64-bit words, the lowest byte first.
ghost use Rattle.std.specs.Prelude.{◌≤◌, length, IfOk};

use crate::failure::Failure;
use bytes_le::read_words;
use input::fill;
use std::env::Env;
use std::fs::{File, Files};
use std::io::Read;
use std::str;

// The most words of a tape that this program holds.
pub(crate) const MOST_WORDS: usize = 131_072;

const CHUNK_BYTES: usize = 4096;

// These hold the longest name of a file.
const NAME_BYTES: usize = 4096;

// Reads the whole file to the front of the tape, part by part, and answers how many words it has.
fn take_all<F: Read>(file: &mut F, tape: &mut [u64]) -> Result<usize, Failure>
    ensures { IfOk result (λ n. n ≤ length tape.new) }
{
    let mut chunk = [0u8; CHUNK_BYTES];
    // the loop counts words by itself: how many a read gives is known only after it
    let mut words = 0;
    loop {
        let n = fill(file, &mut chunk).map_err(|_| Failure::UnreadTape)?;
        if tape.len() - words < n.div_ceil(8) {
            return Err(Failure::TapeTooLong);
        }
        if n % 8 != 0 {
            return Err(Failure::UnreadTape);
        }
        read_words(&chunk, n / 8, tape, words);
        words += n / 8;
        if n < CHUNK_BYTES {
            return Ok(words);
        }
    }
}

// Opens the tape's file, which the first argument names.
fn open<R: Env + Files>(rt: &R) -> Option<R::File> {
    let mut name = [0u8; NAME_BYTES];
    let n = rt.arg(1, &mut name).ok()?;
    let path = str::from_utf8(&name[..n]).ok()?;
    File::open(rt, path).ok()
}

// Reads the tape, which lies at the front of `room` then.
pub(crate) fn load<'a, R: Env + Files>(rt: &R, room: &'a mut [u64]) -> Result<&'a [u64], Failure>
    ensures { IfOk result (λ tape. length tape.now ≤ length room.old) }
{
    let mut file = open(rt).ok_or(Failure::UnreadTape)?;
    let words = take_all(&mut file, room)?;
    Ok(&room[..words])
}
