// The lines of standard input, each answered as soon as it has come.
ghost use Rattle.std.specs.Prelude.{◌≤◌};

use crate::failure::Failure;
use crate::store::BookFile;
use answer_lines::ANSWER_BYTES;
use std::fs::Files;
use std::io::Read;

// Of a line this many bytes are kept: a text of 255, a carriage return and the newline. Of a longer one the newline is not, so that
// what is kept of it is no line.
const LINE_BYTES: usize = 257;

const CHUNK_BYTES: usize = 4096;

// The line at hand: its number, and how many of its bytes are kept, at the front. (An array and a length, and no `ArrayVec`: of the kit's crates this
// stands on std alone.)
#[derive(Drop)]
struct Line {
    number: u64,
    length: usize,
    bytes: [u8; LINE_BYTES],
    ghost within: { length ≤ 257 },
}

impl Line {
    // What is kept of it.
    fn kept(&self) -> &[u8] {
        &self.bytes[..self.length]
    }

    // Keeps a byte, where there is room.
    fn keep(&mut self, byte: u8) {
        if let Some(room) = self.bytes.get_mut(self.length) {
            *room = byte;
            self.length += 1;
        }
    }

    // The line after it.
    fn go_on(&mut self) {
        self.number = self.number.wrapping_add(1);
        self.length = 0;
    }
}

// What lines are answered over: the tape, and the book with its file.
#[derive(Drop)]
pub(crate) struct Service<'a, 'b, R> {
    pub(crate) rt: &'a R,
    pub(crate) tape: &'a [u64],
    pub(crate) book: &'b mut [u8],
    pub(crate) file: &'a BookFile<'a, R>,
}

impl<R: Files + Print> Service<'_, '_, R> {
    // Answers a line. What changed the book is on the disk before the answer is written.
    fn answer(&mut self, line: &Line) -> Result<(), Failure> {
        let mut out = [0u8; ANSWER_BYTES];
        let served = service::serve(self.tape, self.book, line.number, line.kept(), &mut out);
        if served.changed {
            self.file
                .replace(self.book)
                .map_err(|_| Failure::Unwritten)?;
        }
        // a line that is passed over has no answer, and nothing is written
        if served.length == 0 {
            return Ok(());
        }
        self.rt
            .write_all(&out[..served.length])
            .map_err(|_| Failure::Unanswered)
    }

    // Takes the bytes that have come: a newline ends the line at hand, which is answered.
    fn take_bytes(&mut self, line: &mut Line, bytes: &[u8]) -> Result<(), Failure> {
        for byte in bytes {
            line.keep(*byte);
            if *byte == b'\n' {
                self.answer(line)?;
                line.go_on();
            }
        }
        Ok(())
    }

    // Answers every line. What the input has after its last newline was cut off: it is handed on as it is, and is no line. A proved loop
    // has to end, so this one has a number of turns that no run uses up.
    pub(crate) fn answer_all<I: Read>(&mut self, input: &mut I) -> Result<(), Failure> {
        let mut line = Line {
            number: 1,
            length: 0,
            bytes: [0; LINE_BYTES],
        };
        let mut chunk = [0u8; CHUNK_BYTES];
        for _ in 0..u64::MAX {
            let n = input.read(&mut chunk).map_err(|_| Failure::UnreadInput)?;
            if n == 0 {
                return if line.length == 0 {
                    Ok(())
                } else {
                    self.answer(&line)
                };
            }
            self.take_bytes(&mut line, &chunk[..n])?;
        }
        Ok(())
    }
}
