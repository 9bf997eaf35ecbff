// The book's file: read whole, and replaced whole. A kill at any moment leaves the old file or the new one.
ghost use Rattle.std.specs.Prelude.{◌≤◌, length, IfOk};

use crate::failure::Failure;
use bytes_le::all_zero;
use input::fill;
use std::env::Env;
use std::fs::{File, Files, OpenFile, OpenOptions};
use std::io::{ErrorKind, Write};
use std::{fs, io, str};

// The bytes of a book that is made here.
const BOOK_BYTES: usize = 65_536;

// A byte more is enough to tell that a file is longer than any book.
pub(crate) const READ_BYTES: usize = BOOK_BYTES + 1;

// The longest name of a book, so that `.new` fits after it.
const MOST_NAME: usize = 4091;

// These hold its name with `.new`.
pub(crate) const NEXT_BYTES: usize = 4096;

const NEXT: &[u8; 4] = b".new";

// The name of the book's file, and of the next file, which is written whole and takes its name.
#[derive(Drop)]
pub(crate) struct BookFile<'a, R> {
    rt: &'a R,
    path: &'a str,
    next: &'a str,
}

// The folder that a path lies in.
fn folder_of(path: &str) -> &str {
    let folder = path.trim_end_matches(|c: char| c != '/');
    if folder.is_empty() { "." } else { folder }
}

impl<'a, R: Files> BookFile<'a, R> {
    // The file that the second argument names. No file has an empty name, and `.new` after it would be one.
    pub(crate) fn named(rt: &'a R, name: &'a mut [u8; NEXT_BYTES]) -> Option<Self>
    where
        R: Env,
    {
        let n = rt.arg(2, &mut name[..MOST_NAME]).ok()?;
        if n == 0 {
            return None;
        }
        let end = n + NEXT.len();
        name[n..end].copy_from_slice(NEXT);
        Some(BookFile {
            rt,
            path: str::from_utf8(&name[..n]).ok()?,
            next: str::from_utf8(&name[..end]).ok()?,
        })
    }

    // ---- writing

    // Waits until the names in the path's folder are on the disk.
    fn sync_folder(&self) -> io::Result<()> {
        File::open(self.rt, folder_of(self.path))?.sync_all()
    }

    // Writes the next file whole, and waits until it is on the disk, even where not all could be written. It is closed at the end: the
    // library tells of no failure there, where all was synced.
    fn write_next(&self, bytes: &[u8]) -> io::Result<()> {
        let mut file = File::create(self.rt, self.next)?;
        let written = file.write_all(bytes);
        let synced = file.sync_all();
        written.and(synced)
    }

    // The next file takes the book's name.
    fn take_name(&self) -> io::Result<()> {
        fs::rename(self.rt, self.next, self.path)?;
        self.sync_folder()
    }

    // Replaces the book's file by these bytes. Ok: they are on the disk under its name.
    pub(crate) fn replace(&self, bytes: &[u8]) -> io::Result<()> {
        self.write_next(bytes)?;
        self.take_name()
    }

    // Makes a book of zeros where there was none: its bytes first, then its name, which `create_new` gives only to a file that is new.
    fn make(&self, zeros: &[u8]) -> io::Result<()> {
        self.write_next(zeros)?;
        OpenOptions::new()
            .write(true)
            .create_new(true)
            .open(self.rt, self.path)?;
        self.take_name()
    }

    // ---- reading

    // Whether the next file is a whole empty book.
    fn is_next_whole(&self, book: &mut [u8]) -> io::Result<bool> {
        let mut file = File::open(self.rt, self.next)?;
        Ok(fill(&mut file, book)? == BOOK_BYTES && all_zero(book, 0))
    }

    // Reads the book's file whole, or makes one of zeros where it is missing. `room` holds zeros before. A file with no byte beside a next
    // file that is a whole empty book is one whose making was cut short, and is finished here.
    pub(crate) fn load<'b>(&self, room: &'b mut [u8; READ_BYTES]) -> Result<&'b mut [u8], Failure>
        ensures { IfOk result (λ book. length book.now ≤ length room.old) }
    {
        let mut n = match File::open(self.rt, self.path) {
            Ok(mut file) => fill(&mut file, room).map_err(|_| Failure::UnreadBook)?,
            Err(e) if e.kind() == ErrorKind::NotFound => {
                self.make(&room[..BOOK_BYTES])
                    .map_err(|_| Failure::Unwritten)?;
                BOOK_BYTES
            }
            Err(_) => return Err(Failure::UnreadBook),
        };
        if n == 0 && self.is_next_whole(room).unwrap_or(false) {
            self.take_name().map_err(|_| Failure::Unwritten)?;
            n = BOOK_BYTES;
        }
        Ok(&mut room[..n])
    }
}
