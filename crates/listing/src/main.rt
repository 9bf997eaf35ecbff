// Lists the book on standard input: a header, a line for each entry, and their number; or the one line of a refusal.
#![tactic(auto)]

use book_lines::{LISTING_BYTES, listing};

// A byte more than a book may have is enough to refuse it.
const READ_BYTES: usize = 65_536 + 1;

// Writes the listing of these bytes. (By a function of its own: in `main` the room for it would be zeroed before the book is read, and once more
// after.)
fn list(rt: &impl Print, book: &[u8]) {
    let mut out = [0u8; LISTING_BYTES];
    let n = listing(book, &mut out);
    let _ = rt.write_all(&out[..n]);
}

fn main(rt: HostRuntime) {
    let mut book = [0u8; READ_BYTES];
    let Ok(length) = input::fill(&mut rt.stdin(), &mut book) else {
        let _ = rt.write_all(b"unread book\n");
        return;
    };
    list(&rt, &book[..length]);
}
