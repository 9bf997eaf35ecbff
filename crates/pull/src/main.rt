// The pull service: answers each line of standard input by a line, over a tape and a book that are files.
#![tactic(auto)]

mod answering;
mod failure;
mod store;
mod tape;

use answering::Service;
use failure::Failure;
use std::env::{Env, FillError};
use std::fs::Files;
use std::io::Read;
use store::{BookFile, NEXT_BYTES, READ_BYTES};
use tape::MOST_WORDS;

// Whether there is an argument of this number; 0 is the program's name.
fn is_given(rt: &impl Env, i: usize) -> bool {
    !matches!(rt.arg(i, &mut [0u8]), Err(FillError::NotPresent))
}

// Answers the lines over this tape and the book that the second argument names. (By a function of its own: the room for a book is zeroed where the
// function that has it begins, and a wrong number of arguments or a tape that can't be read needs none.)
fn serve<R: Env + Files + Print, I: Read>(
    rt: &R,
    input: &mut I,
    tape: &[u64],
) -> Result<(), Failure> {
    let mut name = [0u8; NEXT_BYTES];
    let file = BookFile::named(rt, &mut name).ok_or(Failure::UnreadBook)?;
    let mut room = [0u8; READ_BYTES];
    let book = file.load(&mut room)?;
    let mut service = Service {
        rt,
        tape,
        book,
        file: &file,
    };
    service.answer_all(input)
}

// Answers the lines over the tape and the book that the two arguments name.
fn run<R: Env + Files + Print, I: Read>(rt: &R, input: &mut I) -> Result<(), Failure> {
    if !is_given(rt, 2) || is_given(rt, 3) {
        return Err(Failure::Usage);
    }
    let mut words = [0u64; MOST_WORDS];
    let tape = tape::load(rt, &mut words)?;
    serve(rt, input, tape)
}

fn main(rt: HostRuntime) {
    match run(&rt, &mut rt.stdin()) {
        // Where an answer can't be written, nothing is said.
        Ok(()) | Err(Failure::Unanswered) => {}
        Err(failure) => {
            let _ = rt.println(failure);
        }
    }
}
