// The listing of a book, as bytes: a header, a line for each entry, and their number; or the one line of a refusal. (Each function answers the place
// after what it wrote, and no struct holds bytes and place: their contracts, by `Writes`, speak of each of them.)
#![tactic(auto)]

ghost use Rattle.std.specs.Prelude.{◌≡◌, ◌+◌, ◌*◌, ◌≤◌, length};
ghost use Rattle.words.specs.Refusals.{NoneHolds};
ghost use Rattle.writing.specs.Writing.{Writes};
ghost use Rattle.book_lines.specs.Listing.{ListingAllows, entries_in, entry_line, entry_lines, listed, listing_refusals};

use entry::Entry;
use kinds::kind_of;
use layout::{Entries, walk};
use lines::{put_number, put_numbered, put_refused};
use words::{MOST_WORDS, Refusal};
use writing::put_text;

// Room for the listing of any book: at most 2,730 entries, a line of at most 60 bytes each, the header and the end.
pub const LISTING_BYTES: usize = 196_608;

// Writes the line of an entry.
#[tactic(auto, using(crate::proofs::Listed::entry_words))]
fn put_entry_line(entry: Entry, out: &mut [u8], at: usize) -> usize
    requires { at + length (entry_line entry) ≤ length out.old }
    ensures { Writes out.old at (entry_line entry) out.new result }
{
    let kind = u64::from(kind_of(entry.request));
    let mut next = put_number(out, at, entry.serial, b' ');
    next = put_number(out, next, kind, b' ');
    next = put_number(out, next, entry.place as u64, b' ');
    next = put_number(out, next, entry.used as u64, b' ');
    put_number(out, next, entry.count, b'\n')
}

// Writes the lines of a sound book's entries, from `at` on.
fn put_entries(book: &[u8], entries: u64, out: &mut [u8], at: usize) -> usize
    requires { NoneHolds (listing_refusals book.now) × (entries ≡ length (entries_in book.now)) × (at + 60 * entries ≤ length out.old) }
    ensures { Writes out.old at (entry_lines (entries_in book.now)) out.new result }
{
    let mut to = at;
    for entry in Entries::of(book, entries) {
        to = put_entry_line(entry, out, to);
    }
    to
}

// Writes the listing of a sound book.
#[tactic(auto, using(crate::proofs::Listed::entries_room))]
fn put_listed(book: &[u8], entries: u64, out: &mut [u8]) -> usize
    requires { NoneHolds (listing_refusals book.now) × (entries ≡ length (entries_in book.now)) × (60 * entries + 52 ≤ length out.old) }
    ensures { Writes out.old 0 (listed (entries_in book.now)) out.new result }
{
    let begun = put_text(out, 0, b"serial kind at used count\n");
    let next = put_entries(book, entries, out, begun);
    put_numbered(out, next, b"end ", entries)
}

// Writes all that the listing program writes of these bytes, and answers how many bytes that is. A book is tested whole before
// anything is written.
#[tactic(auto, using(crate::proofs::Listed::listings))]
pub fn listing(book: &[u8], out: &mut [u8; LISTING_BYTES]) -> usize
    ensures { ListingAllows book.now out.old result out.new }
{
    if layout::is_too_long(book) {
        return put_refused(out, Refusal::BookTooLong);
    }
    let Some(standing) = walk(book, MOST_WORDS) else {
        return put_refused(out, Refusal::BookDamaged);
    };
    put_listed(book, standing.entries, out)
}
