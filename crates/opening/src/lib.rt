// The opening of a book, which every call on one goes through.
#![tactic(auto)]

ghost use Rattle.std.specs.Prelude.{◌≡◌};
ghost use Rattle.opening.specs.Inner.{opened, opened_as};

use layout::{Standing, walk};
use words::{Refusal, too_long};

// What every call begins with: the limits of tape and book, and the walk. It tells how a book stands that is sound for its tape, or why a call goes
// no further.
#[tactic(auto, using(crate::proofs::Opening::openings))]
pub fn open_book(tape: &[u64], book: &[u8]) -> Result<Standing, Refusal>
    ensures { opened_as result ≡ opened tape.now book.now }
{
    if too_long(tape) {
        return Err(Refusal::TapeTooLong);
    }
    if layout::is_too_long(book) {
        return Err(Refusal::BookTooLong);
    }
    walk(book, tape.len()).ok_or(Refusal::BookDamaged)
}
