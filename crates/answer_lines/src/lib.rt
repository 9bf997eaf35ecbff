// The line that answers a call of the pull service, as bytes. (Each function answers the place after what it wrote, and no struct holds bytes and place:
// their contracts, by `Writes`, speak of each of them.)
#![tactic(auto)]

ghost use Rattle.std.specs.Prelude.{◌++◌, ◌≤◌, length};
ghost use Rattle.std.proofs.Math.Option.{some};
ghost use Rattle.words.specs.Paper.{number_of};
ghost use Rattle.book.specs.Deliver.{delivered};
ghost use Rattle.book.specs.Strike.{struck};
ghost use Rattle.redraws.specs.Redraw.{redrawn};
ghost use Rattle.writing.specs.Writing.{Writes};
ghost use Rattle.answer_lines.specs.Answers.{delivery_line, kept_line, named_line, redraw_line, refusal_line, strike_line, unread_line};
ghost use Rattle.answer_lines.specs.Inner.{counts_after, refused_by};

use book::Delivered;
use lines::{put_number, put_numbered};
use names::put_name;
use redraws::Redrawn;
use words::{Draw, Refusal};
use writing::put_text;

// Room for any line that answers a call.
pub const ANSWER_BYTES: usize = 80;

// Writes the first words of a refusal's line, its number and its name among them, and the byte that ends the name.
#[tactic(auto, using(crate::proofs::Refusals::number_words))]
fn put_refused_by(out: &mut [u8; ANSWER_BYTES], refusal: Refusal, end: u8) -> usize
    ensures { Writes out.old 0 (refused_by (number_of refusal) end) out.new result }
{
    let mut next = put_text(out, 0, b"refused ");
    next = put_number(out, next, u64::from(u32::from(refusal)), b' ');
    put_name(out, next, refusal, end)
}

// Writes the line of a refusal.
#[tactic(auto, using(crate::proofs::Refusals::refused_line_lem))]
fn put_refusal(out: &mut [u8; ANSWER_BYTES], refusal: Refusal) -> usize
    ensures { Writes out.old 0 (refusal_line (number_of refusal)) out.new result }
{
    put_refused_by(out, refusal, b'\n')
}

// Writes the line of a booking or of its copy, after the text that says which.
#[tactic(auto, using(crate::proofs::Refusals::number_words))]
fn put_draw(out: &mut [u8; ANSWER_BYTES], text: &[u8], serial: u32, draw: Draw) -> usize
    requires { length text.now ≤ 7 }
    ensures { Writes out.old 0 (text.now ++ counts_after serial draw.count draw.used) out.new result }
{
    let mut next = put_text(out, 0, text);
    next = put_text(out, next, b"serial ");
    next = put_number(out, next, u64::from(serial), b' ');
    next = put_text(out, next, b"count ");
    next = put_number(out, next, draw.count, b' ');
    put_numbered(out, next, b"used ", draw.used as u64)
}

// The line that answers a delivery of this serial, at the front of `out`, and its length.
#[tactic(auto, unfolding(crate::specs::Answers::count_line, crate::specs::Inner::counts_after, lines::specs::Lines::line))]
pub fn delivered_line(
    serial: u32,
    answer: Result<Delivered, Refusal>,
    out: &mut [u8; ANSWER_BYTES],
) -> usize
    ensures { Writes out.old 0 (delivery_line serial (delivered answer)) out.new result }
{
    match answer {
        Ok(Delivered::Fresh(draw)) => put_draw(out, b"booked ", serial, draw),
        Ok(Delivered::Copy(draw)) => put_draw(out, b"copy ", serial, draw),
        Err(refusal) => put_refusal(out, refusal),
    }
}

// The line that answers a strike.
#[tactic(auto, unfolding(lines::specs::Lines::line))]
pub fn struck_line(answer: Result<u64, Refusal>, out: &mut [u8; ANSWER_BYTES]) -> usize
    ensures { Writes out.old 0 (strike_line (struck answer)) out.new result }
{
    match answer {
        Ok(entries) => put_numbered(out, 0, b"left ", entries),
        Err(refusal) => put_refusal(out, refusal),
    }
}

// The line that answers a strike from another number of entries than stand: these. (Here and at `unread_line` the words are all that differs: one
// function with the words handed in is `put_numbered`.)
#[tactic(auto, unfolding(crate::specs::Answers::kept_line, lines::specs::Lines::line))]
pub fn kept_line(entries: u64, out: &mut [u8; ANSWER_BYTES]) -> usize
    ensures { Writes out.old 0 (kept_line entries) out.new result }
{
    put_numbered(out, 0, b"kept ", entries)
}

// The line of a redraw that differs: 17, and the serial that it names.
#[tactic(auto, using(crate::proofs::Refusals::refused_short))]
fn put_differs(out: &mut [u8; ANSWER_BYTES], serial: u64) -> usize
    ensures { Writes out.old 0 (named_line 17 (some serial)) out.new result }
{
    let next = put_refused_by(out, Refusal::RedrawDiffers, b' ');
    put_numbered(out, next, b"serial ", serial)
}

// The line that answers a redraw.
#[tactic(auto, unfolding(lines::specs::Lines::line))]
pub fn redrawn_line(answer: Result<Redrawn, Refusal>, out: &mut [u8; ANSWER_BYTES]) -> usize
    ensures { Writes out.old 0 (redraw_line (redrawn answer)) out.new result }
{
    match answer {
        Ok(Redrawn::Agrees { entries }) => put_numbered(out, 0, b"agrees ", entries),
        Ok(Redrawn::Differs { serial }) => put_differs(out, serial),
        Err(refusal) => put_refusal(out, refusal),
    }
}

// The line that says that the line of this number can't be read.
#[tactic(auto, unfolding(crate::specs::Answers::unread_line, lines::specs::Lines::line))]
pub fn unread_line(n: u64, out: &mut [u8; ANSWER_BYTES]) -> usize
    ensures { Writes out.old 0 (unread_line n) out.new result }
{
    put_numbered(out, 0, b"unread line ", n)
}
