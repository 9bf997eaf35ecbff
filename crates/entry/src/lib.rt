// One entry of a book, read and written. Only here and in layout is it known where a field stands. (Bytes and place are two parameters, and no struct
// of both: the definitions that the documents name, as `entry_at`, speak of each of them.)
#![tactic(auto)]

ghost use Rattle.std.specs.Prelude.{◌≡◌, cond, ◌+◌, ◌*◌, ◌≤◌, ltb, length, get_or, drop};
ghost use Rattle.std.proofs.Math.Option.{some};
ghost use Rattle.std.proofs.lemmas.List.Edits.{sets};
ghost use Rattle.words.specs.Inner.{drew};
ghost use Rattle.bytes_le.specs.LittleEndian.{bytes_of, words_from};
ghost use Rattle.kinds.specs.Kinds.{fixed_length, kind_of, parameters_in, kind_number, parameters_of, length_of};
ghost use Rattle.entry.specs.Entry.{parameter_bytes, fixed_bytes, entry_bytes, count_at, entry_at};
ghost use Rattle.entry.specs.Inner.{row_at, HasEntry};

use bytes_le::{read_le, write_le};
use kinds::{Parts, Request, Row, kind_of, length_of, parameters_by, row_of};
use words::Draw;

// Where an entry's fixed fields stand, counted from its first byte. The length stands first.
pub const KIND: usize = 2;

pub const SERIAL: usize = 4;

pub const PLACE: usize = 8;

pub const USED: usize = 12;

const COUNT: usize = 16;

// How many bytes they take: the parameters stand after them.
pub const FIXED: usize = 24;

// A booking: what was asked for, its serial, the tape's place before the draw, the words used and the count.
#[derive(Clone, Copy)]
pub struct Entry {
    pub request: Request,
    pub serial: u64,
    pub place: usize,
    pub used: usize,
    pub count: u64,
}

// The draw that an entry books.
impl From<Entry> for Draw {
    ghost from_gives = { λ entry draw. draw ≡ drew entry.count entry.used };

    fn from(entry: Entry) -> Draw {
        Draw {
            count: entry.count,
            used: entry.used,
        }
    }
}

// ---- read

// The parameter i of so many that stand from `at` on, and 0 past the last. (0 and no Option: the contract's `get_or` says so, and `row_of` takes numbers.)
#[tactic(auto, using(crate::proofs::Entries::word_read, crate::proofs::Entries::none_left))]
fn parameter_at(book: &[u8], at: usize, parameters: u64, i: u64) -> u64
    requires { at + 8 * parameters ≤ length book.now }
    ensures { result ≡ get_or (words_from parameters (drop at book.now)) i 0 }
{
    if i < parameters {
        read_le(book, at + 8 * (i as usize), 8)
    } else {
        0
    }
}

// What the table has for the entry at `at`: its request, if its kind is one of the table's. (Three reads and no loop: `row_of` takes three numbers.)
#[tactic(auto, using(crate::proofs::Entries::kind_small, crate::proofs::Entries::fixed_room, crate::proofs::Entries::parameters_room, crate::proofs::Entries::row_read))]
fn row_at(book: &[u8], at: usize) -> Option<Row>
    requires { HasEntry book.now at }
    ensures { result ≡ row_at fixed_length book.now at }
{
    let kind = read_le(book, at + KIND, 2) as u16;
    let parameters = parameters_by(kind);
    let first = parameter_at(book, at + FIXED, parameters, 0);
    let second = parameter_at(book, at + FIXED, parameters, 1);
    let third = parameter_at(book, at + FIXED, parameters, 2);
    row_of(kind, first, second, third)
}

// The count of the entry at `at`. (By a function of its own, since the compiler then makes one load of its eight bytes.)
fn count_at(book: &[u8], at: usize) -> u64
    requires { at + fixed_length ≤ length book.now }
    ensures { result ≡ count_at book.now at }
{
    read_le(book, at + COUNT, 8)
}

// The entry at `at`.
#[tactic(auto, using(crate::proofs::Entries::fixed_room, crate::proofs::Entries::entry_made))]
pub fn entry_at(book: &[u8], at: usize) -> Entry
    requires { HasEntry book.now at }
    ensures { entry_at book.now at ≡ some result }
{
    let row = row_at(book, at).unwrap();
    Entry {
        request: row.request,
        serial: read_le(book, at + SERIAL, 4),
        place: read_le(book, at + PLACE, 4) as usize,
        used: read_le(book, at + USED, 4) as usize,
        count: count_at(book, at),
    }
}

// ---- written

// The fields that every entry has.
#[tactic(auto, using(crate::proofs::Writing::fixed_run))]
fn put_fixed(book: &mut [u8], at: usize, entry: Entry)
    requires { at + fixed_length ≤ length book.old }
    ensures { book.new ≡ sets book.old at (fixed_bytes entry) }
{
    let request = entry.request;
    write_le(book, at, 2, length_of(request));
    write_le(book, at + KIND, 2, u64::from(kind_of(request)));
    write_le(book, at + SERIAL, 4, entry.serial);
    write_le(book, at + PLACE, 4, entry.place as u64);
    write_le(book, at + USED, 4, entry.used as u64);
    write_le(book, at + COUNT, 8, entry.count);
}

// Writes the parameter i of so many that stand from `at` on, and nothing past the last.
fn put_parameter(book: &mut [u8], at: usize, parameters: u64, i: u64, value: u64)
    requires { at + 8 * parameters ≤ length book.old }
    ensures { book.new ≡ cond (ltb i parameters) (sets book.old (at + 8 * i) (bytes_of 8 value)) book.old }
{
    if i < parameters {
        write_le(book, at + 8 * (i as usize), 8, value);
    }
}

// A request's parameters, one after another. (One by one, as DECISIONS 81 has it: a loop over them becomes a call of memcpy, 17 instructions dearer
// than the three tests.)
#[tactic(auto, using(crate::proofs::Writing::parameters_run))]
fn put_parameters(book: &mut [u8], at: usize, request: Request)
    requires { at + 8 * parameters_in (kind_of (kind_number request)) ≤ length book.old }
    ensures { book.new ≡ sets book.old at (parameter_bytes (parameters_of request)) }
{
    let parts = Parts::from(request);
    let parameters = parameters_by(parts.kind);
    put_parameter(book, at, parameters, 0, parts.first);
    put_parameter(book, at, parameters, 1, parts.second);
    put_parameter(book, at, parameters, 2, parts.third);
}

// Writes an entry's bytes from `at` on, and no other byte.
#[tactic(auto, using(crate::proofs::Entries::request_room, crate::proofs::Writing::entry_run))]
pub fn put_entry(book: &mut [u8], at: usize, entry: Entry)
    requires { at + length_of entry.request ≤ length book.old }
    ensures { book.new ≡ sets book.old at (entry_bytes entry) }
{
    let request = entry.request;
    put_fixed(book, at, entry);
    put_parameters(book, at + FIXED, request);
}
