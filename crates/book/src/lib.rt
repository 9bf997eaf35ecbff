// The book of draws: deliveries and strikes. A copy of a message gets the answer that it got before.
#![tactic(auto)]

ghost use Rattle.std.specs.Prelude.{◌≡◌, [], ◌∷◌, cond, not, ◌&&◌, ◌+◌, ◌^◌, ◌<◌};
ghost use Rattle.words.specs.Refusals.{◌on◌, given};
ghost use Rattle.words.specs.Inner.{is_short};
ghost use Rattle.words.specs.Paper.{number_of};
ghost use Rattle.kinds.specs.Kinds.{same_request};
ghost use Rattle.opening.specs.Calls.{call};
ghost use Rattle.opening.specs.Inner.{IsOpen};
ghost use Rattle.book.specs.Deliver.{DeliverAllows, booking_at, copied, delivered};
ghost use Rattle.book.specs.Inner.{fresh_delivery};
ghost use Rattle.book.specs.Strike.{StrikeAllows};

use bytes_le::wipe;
use entry::{Entry, entry_at, put_entry};
use kinds::{Request, length_of};
use layout::{Standing, offset_of};
use opening::open_book;
use words::{Draw, Refusal, is_short};

// What a delivery that is not refused answers: what was freshly drawn and booked, or what was booked before.
#[derive(Clone, Copy, PartialEq, Eq)]
pub enum Delivered {
    Fresh(Draw),
    Copy(Draw),
}

// ---- deliveries

// The entry that books a draw after those that stand.
fn entry_of(standing: Standing, request: Request, draw: Draw) -> Entry
    requires { standing.entries < 2 ^ 32 }
    ensures { result ≡ booking_at standing request draw.count draw.used }
{
    Entry {
        request,
        serial: standing.entries + 1,
        place: standing.place,
        used: draw.used,
        count: draw.count,
    }
}

// What an entry answers a delivery of its serial.
#[tactic(auto, using(crate::proofs::Delivering::copy_equal, crate::proofs::Delivering::copy_other))]
fn copy_of(entry: Entry, request: Request) -> Result<Delivered, Refusal>
    ensures { delivered result ≡ given (14 on not (same_request entry.request request) ∷ []) (copied entry) }
{
    if entry.request == request {
        Ok(Delivered::Copy(Draw::from(entry)))
    } else {
        Err(Refusal::SerialReused)
    }
}

// Which refusal a fresh delivery is given: the draw's own, but of a full book 15 goes before those of a tape that is too short.
fn in_order(refusal: Refusal, full: bool) -> Refusal
    ensures { number_of result ≡ cond (full && is_short (number_of refusal)) 15 (number_of refusal) }
{
    if full && is_short(u32::from(refusal)) {
        Refusal::BookFull
    } else {
        refusal
    }
}

// A delivery whose serial is next. The draw comes before the test of the room, since a parameter's refusal goes before 15;
// where there is no room nothing of the draw is kept.
#[tactic(auto, using(opening::proofs::Opening::standings, crate::proofs::Fresh::freshes))]
fn fresh_at(
    tape: &[u64],
    book: &mut [u8],
    standing: Standing,
    request: Request,
) -> Result<Delivered, Refusal>
    requires { IsOpen tape.now book.old standing }
    ensures { call (delivered result) book.new ≡ fresh_delivery tape.now book.old standing request }
{
    let is_full = ((book.len() - standing.end) as u64) < length_of(request);
    let words = &tape[standing.place..];
    let draw = draws::draw(words, request).map_err(|refusal| in_order(refusal, is_full))?;
    if is_full {
        return Err(Refusal::BookFull);
    }
    put_entry(book, standing.end, entry_of(standing, request, draw));
    Ok(Delivered::Fresh(draw))
}

// Delivers a request. A serial that is next is drawn from the tape at the book's place and booked; a copy of a booked one gets what was
// booked; anything else is refused, and the book stays as it was.
#[tactic(auto, using(opening::proofs::Opening::standings, crate::proofs::Delivering::deliveries))]
pub fn deliver(
    tape: &[u64],
    book: &mut [u8],
    serial: u32,
    request: Request,
) -> Result<Delivered, Refusal>
    ensures { DeliverAllows tape.now book.old serial request result book.new }
{
    let standing = open_book(tape, book)?;
    let serial = u64::from(serial);
    let next = standing.entries + 1;
    if serial == 0 || next < serial {
        return Err(Refusal::SerialAhead);
    }
    if serial < next {
        let at = offset_of(book, serial - 1);
        return copy_of(entry_at(book, at), request);
    }
    fresh_at(tape, book, standing, request)
}

// ---- strikes

// Strikes the last j entries: their bytes become 0, and their serials are fresh again. It answers how many entries are left.
#[tactic(auto, using(opening::proofs::Opening::standings, crate::proofs::Striking::strikes))]
pub fn strike(tape: &[u64], book: &mut [u8], j: u64) -> Result<u64, Refusal>
    ensures { StrikeAllows tape.now book.old j result book.new }
{
    let standing = open_book(tape, book)?;
    if standing.entries < j {
        return Err(Refusal::StrikeTooMany);
    }
    let left = standing.entries - j;
    let at = offset_of(book, left);
    wipe(book, at, standing.end);
    Ok(left)
}
