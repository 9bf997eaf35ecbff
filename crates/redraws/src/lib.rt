// The redraw: every entry of a book is drawn again from its place.
#![tactic(auto)]

ghost use Rattle.std.specs.Prelude.{◌≡◌, ◌≤◌, length};
ghost use Rattle.redraws.specs.Redraw.{RedrawAllows, agrees};

use entry::Entry;
use layout::Entries;
use opening::open_book;
use words::{Draw, Refusal};

// What a redraw that is not refused answers: that all of so many entries agree, or the lowest serial that doesn't (refusal 17).
#[derive(Clone, Copy, PartialEq, Eq)]
pub enum Redrawn {
    Agrees { entries: u64 },
    Differs { serial: u64 },
}

// Whether an entry is what its request draws from its place.
fn agrees_on(tape: &[u64], entry: Entry) -> bool
    requires { entry.place ≤ length tape.now }
    ensures { result ≡ agrees tape.now entry }
{
    draws::draw(&tape[entry.place..], entry.request) == Ok(Draw::from(entry))
}

// Draws every entry again from its place. The book is only read.
#[tactic(auto, using(opening::proofs::Opening::standings, crate::proofs::Redrawing::turns))]
pub fn redraw(tape: &[u64], book: &[u8]) -> Result<Redrawn, Refusal>
    ensures { RedrawAllows tape.now book.now result }
{
    let standing = open_book(tape, book)?;
    for entry in Entries::of(book, standing.entries) {
        if !agrees_on(tape, entry) {
            return Ok(Redrawn::Differs {
                serial: entry.serial,
            });
        }
    }
    Ok(Redrawn::Agrees {
        entries: standing.entries,
    })
}
