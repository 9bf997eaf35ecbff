// The entries of a book, one after another.
#![tactic(auto)]

ghost use Rattle.std.specs.Prelude.{◌≡◌};
ghost use Rattle.std.specs.Iterator.{YieldsFirst, item_count};
ghost use Rattle.layout.specs.Inner.{entries_from, Lie};

use crate::next_at;
use entry::{Entry, entry_at};
use std::marker::Model;

// So many entries that are left, from a place on.
#[derive(Drop)]
pub struct Entries<'a> {
    book: &'a [u8],
    at: usize,
    left: u64,
}

impl<'a> Model for Entries<'a> {
    ghost use Rattle.std.specs.Prelude.{List};
    ghost use Rattle.entry.specs.declared.Entry.{Entry};
    ghost use Rattle.layout.specs.Inner.{entries_from, Lie};

    ghost Value = { List Entry };

    ghost view = { λ it. entries_from it.left it.book.now it.at };

    ghost invariant = { λ it. Lie it.left it.book.now it.at };
}

impl<'a> Entries<'a> {
    // The first k entries of a book.
    pub fn of(book: &'a [u8], k: u64) -> Self
        requires { Lie k book.now 0 }
        ensures { result ≡ entries_from k book.now 0 }
    {
        Entries {
            book,
            at: 0,
            left: k,
        }
    }
}

impl Iterator for Entries<'_> {
    type Item = Entry;

    ghost next_gives = { YieldsFirst (λ rest. rest) };

    ghost remaining = { item_count (λ rest. rest) };

    #[tactic(auto, using(crate::proofs::Following::firsts))]
    fn next(&mut self) -> Option<Entry> {
        if self.left == 0 {
            return None;
        }
        let entry = entry_at(self.book, self.at);
        self.at = next_at(self.book, self.at);
        self.left -= 1;
        Some(entry)
    }
}
