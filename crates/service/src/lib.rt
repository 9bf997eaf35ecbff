// One line of the pull service: it is read, its call is made, and its answer is a line of bytes.
#![tactic(auto)]

ghost use Rattle.std.specs.Prelude.{◌≡◌, false};
ghost use Rattle.words.specs.Outcome.{drawn};
ghost use Rattle.book.specs.Deliver.{delivered};
ghost use Rattle.book.specs.Deliver as deliveries;
ghost use Rattle.book.specs.Strike.{struck};
ghost use Rattle.book.specs.Strike as strikes;
ghost use Rattle.service.specs.Service.{Meets, ServeAllows, delivering, is_fresh, is_struck, struck_from, striking};

use answer_lines::{
    ANSWER_BYTES, delivered_line, kept_line, redrawn_line, struck_line, unread_line,
};
use book::Delivered;
use kinds::Request;
use request_line::Line;
use words::Refusal;

// How many bytes of an answer there are, none where there is nothing to say; and whether the book has to be written before them. Both are told of
// every line, a refused one too.
#[derive(Clone, Copy)]
pub struct Served {
    pub length: usize,
    pub changed: bool,
}

// An answer of so many bytes to a call that left the book as it was.
fn unchanged(length: usize) -> Served
    ensures { (result.length ≡ length) × (result.changed ≡ false) }
{
    Served {
        length,
        changed: false,
    }
}

fn is_fresh(answer: Result<Delivered, Refusal>) -> bool
    ensures { result ≡ is_fresh (delivered answer) }
{
    matches!(answer, Ok(Delivered::Fresh(_)))
}

fn is_struck(j: u64, answer: Result<u64, Refusal>) -> bool
    ensures { result ≡ is_struck j (struck answer) }
{
    answer.is_ok() && j != 0
}

// The tape, the book and the bytes for the answer are handed on as they are lent, and not in one struct: contracts speak of the book and of those bytes
// at entry and at exit, each by itself (`Meets`).
fn deliver(
    tape: &[u64],
    book: &mut [u8],
    serial: u32,
    request: Request,
    out: &mut [u8; ANSWER_BYTES],
) -> Served
    ensures { Meets out.old (delivering serial (deliveries.deliver tape.now book.old serial request)) result.length result.changed book.new out.new }
{
    let answer = book::deliver(tape, book, serial, request);
    let length = delivered_line(serial, answer, out);
    let changed = is_fresh(answer);
    Served { length, changed }
}

fn strike(tape: &[u64], book: &mut [u8], j: u64, out: &mut [u8; ANSWER_BYTES]) -> Served
    ensures { Meets out.old (striking j (strikes.strike tape.now book.old j)) result.length result.changed book.new out.new }
{
    let answer = book::strike(tape, book, j);
    let length = struck_line(answer, out);
    let changed = is_struck(j, answer);
    Served { length, changed }
}

// A strike of j from a number of entries, in a book where `standing` of them stand: 16; or the strike itself; or nothing is struck, and
// the answer is that it was struck before, or how many stand.
fn strike_standing(
    tape: &[u64],
    book: &mut [u8],
    standing: u64,
    j: u64,
    entries: u64,
    out: &mut [u8; ANSWER_BYTES],
) -> Served
    requires { (strikes.strike tape.now book.old 0).outcome ≡ drawn standing 0 }
    ensures { Meets out.old (struck_from tape.now book.old j entries) result.length result.changed book.new out.new }
{
    if entries < j {
        return unchanged(struck_line(Err(Refusal::StrikeTooMany), out));
    }
    if standing == entries {
        return strike(tape, book, j, out);
    }
    if standing == entries - j {
        return unchanged(struck_line(Ok(standing), out));
    }
    unchanged(kept_line(standing, out))
}

// A strike from a number of entries. A strike of 0 changes nothing, and answers how many stand.
fn strike_from(
    tape: &[u64],
    book: &mut [u8],
    j: u64,
    entries: u64,
    out: &mut [u8; ANSWER_BYTES],
) -> Served
    ensures { Meets out.old (struck_from tape.now book.old j entries) result.length result.changed book.new out.new }
{
    match book::strike(tape, book, 0) {
        Ok(standing) => strike_standing(tape, book, standing, j, entries, out),
        Err(refusal) => unchanged(struck_line(Err(refusal), out)),
    }
}

// Serves a line as it came, its newline with it; `number` is the line's, counted from 1. The answer stands at the front of `out`.
pub fn serve(
    tape: &[u64],
    book: &mut [u8],
    number: u64,
    line: &[u8],
    out: &mut [u8; ANSWER_BYTES],
) -> Served
    ensures { ServeAllows tape.now book.old number line.now out.old result.length result.changed book.new out.new }
{
    match request_line::read(line) {
        Some(Line::Deliver { serial, request }) => deliver(tape, book, serial, request, out),
        Some(Line::Strike { j }) => strike(tape, book, j, out),
        Some(Line::StrikeFrom { j, entries }) => strike_from(tape, book, j, entries, out),
        Some(Line::Redraw) => unchanged(redrawn_line(redraws::redraw(tape, book), out)),
        Some(Line::Passed) => unchanged(0),
        None => unchanged(unread_line(number, out)),
    }
}
