// The layout of a book: entries one after another, and the walk over all of them.
#![tactic(auto)]

ghost use Rattle.std.specs.Prelude.{◌≡◌, cond, ◌+◌, ◌≤◌, length, drop};
ghost use Rattle.entry.specs.Entry.{length_at};
ghost use Rattle.layout.specs.Book.{book_too_long, is_closed, head};
ghost use Rattle.layout.specs.Sound.{offset};
ghost use Rattle.layout.specs.Inner.{walked, Reaches};

mod entries;

use bytes_le::{all_zero, read_le};
pub use entries::Entries;
use entry::{FIXED, KIND, PLACE, SERIAL, USED};
use kinds::length_by;

// How a book stands: the number of its entries, where they end, and the tape's place after them.
#[derive(Clone, Copy, PartialEq, Eq)]
pub struct Standing {
    pub entries: u64,
    pub end: usize,
    pub place: usize,
}

// The most bytes that a book may have.
const MOST_BYTES: usize = 65_536;

// What stands at the front of the bytes that are left: nothing more, what no book has there, or the next entry. (The definition `head` of specs/ has
// these three cases.)
#[derive(Clone, Copy, PartialEq, Eq)]
enum Head {
    End,
    Damage,
    Next,
}

// Whether the book has more bytes than a book may have.
#[tactic(auto, unfolding(crate::specs::Book::book_too_long))]
pub fn is_too_long(book: &[u8]) -> bool
    ensures { result ≡ book_too_long book.now }
{
    MOST_BYTES < book.len()
}

// Where the entry after the one at `at` begins.
pub fn next_at(book: &[u8], at: usize) -> usize
    requires { (at + 2 ≤ length book.now) × (at + length_at book.now at ≤ length book.now) }
    ensures { result ≡ at + length_at book.now at }
{
    at + read_le(book, at, 2) as usize
}

// ---- the walk

// What stands where these entries end: the next serial and their place are due there.
#[tactic(auto, using(entry::proofs::Entries::kind_small, crate::proofs::Walking::heads))]
fn head_at(book: &[u8], standing: Standing) -> Head
    requires { (standing.entries ≤ standing.end) × (standing.end ≤ length book.now) }
    ensures { result ≡ head (standing.entries + 1) standing.place (drop standing.end book.now) }
{
    let at = standing.end;
    let left = book.len() - at;
    if left < 2 {
        return Head::End;
    }
    let length = read_le(book, at, 2);
    if length == 0 {
        return Head::End;
    }
    // Every entry has its fixed fields: of a shorter one they could lie outside the book.
    if (left as u64) < length || length < FIXED as u64 {
        return Head::Damage;
    }
    if length != length_by(read_le(book, at + KIND, 2) as u16)
        || read_le(book, at + SERIAL, 4) != standing.entries + 1
        || read_le(book, at + PLACE, 4) != standing.place as u64
    {
        return Head::Damage;
    }
    Head::Next
}

// Whether a book may end so: the words used have to be on the tape, and every byte from there on 0.
fn is_closed(book: &[u8], standing: Standing, words: usize) -> bool
    requires { standing.end ≤ length book.now }
    ensures { result ≡ is_closed words standing.place (drop standing.end book.now) }
{
    standing.place <= words && all_zero(book, standing.end)
}

// Walks the whole book, for a tape of this many words: how it stands, or nothing where it is not sound. (The book says where it ends: a `for` over
// the entries would leave an answer to make up past the last serial.)
#[tactic(auto, using(crate::proofs::Walking::turns))]
pub fn walk(book: &[u8], words: usize) -> Option<Standing>
    ensures { result ≡ walked words book.now }
{
    let mut standing = Standing {
        entries: 0,
        end: 0,
        place: 0,
    };
    loop {
        match head_at(book, standing) {
            Head::End => return is_closed(book, standing, words).then_some(standing),
            Head::Damage => return None,
            Head::Next => {
                let at = standing.end;
                standing.place += read_le(book, at + USED, 4) as usize;
                standing.end = next_at(book, at);
                standing.entries += 1;
            }
        }
    }
}

// Where the entry after the first k begins. (Passed by hand: `Entries` would read each of them whole, and give no place.)
#[tactic(auto, using(crate::proofs::Walking::offset_next), unfolding(crate::specs::Sound::offset))]
pub fn offset_of(book: &[u8], k: u64) -> usize
    requires { Reaches book.now k }
    ensures { result ≡ offset book.now k }
{
    let mut at: usize = 0;
    for _ in 0..k {
        at = next_at(book, at);
    }
    at
}
