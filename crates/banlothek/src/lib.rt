// The functions for C: a draw of each kind, and each call on a book, with one struct for every answer. include/banlothek.h declares them,
// and says what a caller in C owes. The crate banlothek_c exports them.
#![tactic(auto)]

ghost use Rattle.std.specs.Prelude.{◌≡◌, [], ◌∷◌, ◌<◌, ◌^◌, cond};
ghost use Rattle.words.specs.Outcome.{used_of};
ghost use Rattle.words.specs.Paper.{number_of, paper};
ghost use Rattle.kinds.specs.declared.Request.TheVariants.{Hypergeometric, Poisson, Geometric, StandardGeometric};
ghost use Rattle.book.specs.Deliver as rules;
ghost use Rattle.banlothek.specs.Face.{DeliverTells, DrawTells, Meets, RedrawTells, StrikeTells, accepted, no_such_kind, of_delivery, plain, refused_by, version};

use book::Delivered;
use kinds::{Request, row_of};
use redraws::Redrawn;
use words::{Answer, Draw, Refusal};

// What every function answers. The header's `banlothek_answer` has these fields in this order: C is told by numbers which refusal it is and whether
// it is a copy.
#[repr(C)]
#[derive(Clone, Copy)]
pub struct BanlothekAnswer {
    pub refusal: u32,
    pub copied: u32,
    pub serial: u32,
    pub used: u32,
    pub count: u64,
}

// ---- the struct

// What was drawn, and whether it is a copy.
fn accept(copied: bool, draw: Draw) -> BanlothekAnswer
    requires { draw.used < 2 ^ 32 }
    ensures { result ≡ accepted (cond copied 1 0) draw.used draw.count }
{
    let used = draw.used as u32;
    BanlothekAnswer {
        refusal: 0,
        copied: u32::from(copied),
        serial: 0,
        used,
        count: draw.count,
    }
}

// The entries that are left, or that agree: no word is used.
fn count_entries(entries: u64) -> BanlothekAnswer
    ensures { result ≡ accepted 0 0 entries }
{
    accept(
        false,
        Draw {
            count: entries,
            used: 0,
        },
    )
}

// A refusal, and the serial that it names.
fn refuse(refusal: Refusal, serial: u32) -> BanlothekAnswer
    ensures { result ≡ refused_by (number_of refusal) serial }
{
    refuse_by(u32::from(refusal), serial)
}

// The same by its number.
fn refuse_by(refusal: u32, serial: u32) -> BanlothekAnswer
    ensures { result ≡ refused_by refusal serial }
{
    BanlothekAnswer {
        refusal,
        copied: 0,
        serial,
        used: 0,
        count: 0,
    }
}

// ---- draws, each by its own kind's function, which C calls by its name: a caller that asks for one kind need not pay for a choice among four

// A draw's answer.
fn told(answer: Answer) -> BanlothekAnswer
    requires { used_of (paper answer) < 2 ^ 32 }
    ensures { result ≡ plain (paper answer) }
{
    match answer {
        Ok(draw) => accept(false, draw),
        Err(refusal) => refuse(refusal, 0),
    }
}

pub fn banlothek_draw_hypergeometric(
    tape: &[u64],
    total: u64,
    marked: u64,
    sample: u64,
) -> BanlothekAnswer
    ensures { DrawTells (Hypergeometric total marked sample) tape.now result }
{
    told(hypergeometric::sample(tape, total, marked, sample))
}

pub fn banlothek_draw_poisson(tape: &[u64], threshold_bits: u64) -> BanlothekAnswer
    ensures { DrawTells (Poisson threshold_bits) tape.now result }
{
    told(poisson::sample_bits(tape, threshold_bits))
}

pub fn banlothek_draw_geometric(tape: &[u64], p_bits: u64) -> BanlothekAnswer
    ensures { DrawTells (Geometric p_bits) tape.now result }
{
    told(geometric::sample_bits(tape, p_bits))
}

pub fn banlothek_draw_standard_geometric(tape: &[u64]) -> BanlothekAnswer
    ensures { DrawTells StandardGeometric tape.now result }
{
    told(standard_geometric::sample(tape))
}

// ---- the book

fn deliver(tape: &[u64], book: &mut [u8], serial: u32, request: Request) -> BanlothekAnswer
    ensures { Meets of_delivery (rules.deliver tape.now book.old serial request) result book.new }
{
    match book::deliver(tape, book, serial, request) {
        Ok(Delivered::Fresh(draw)) => accept(false, draw),
        Ok(Delivered::Copy(draw)) => accept(true, draw),
        Err(refusal) => refuse(refusal, 0),
    }
}

// What a number that is no kind's is refused by: a number of these functions alone, since the rules know no request of such a kind.
const NO_SUCH_KIND: u32 = 100;

// By a kind's number, so that a kind to come needs no function of its own. The table of kinds says what it asks for; its numbers have 16 bits, as
// in a book.
pub fn banlothek_deliver(
    tape: &[u64],
    book: &mut [u8],
    serial: u32,
    kind: u32,
    first: u64,
    second: u64,
    third: u64,
) -> BanlothekAnswer
    ensures { DeliverTells tape.now book.old serial kind (first ∷ second ∷ third ∷ []) result book.new }
{
    let Ok(kind) = u16::try_from(kind) else {
        return refuse_by(NO_SUCH_KIND, 0);
    };
    match row_of(kind, first, second, third) {
        Some(row) => deliver(tape, book, serial, row.request),
        None => refuse_by(NO_SUCH_KIND, 0),
    }
}

pub fn banlothek_strike(tape: &[u64], book: &mut [u8], j: u64) -> BanlothekAnswer
    ensures { StrikeTells tape.now book.old j result book.new }
{
    match book::strike(tape, book, j) {
        Ok(entries) => count_entries(entries),
        Err(refusal) => refuse(refusal, 0),
    }
}

pub fn banlothek_redraw(tape: &[u64], book: &[u8]) -> BanlothekAnswer
    ensures { RedrawTells tape.now book.now result }
{
    match redraws::redraw(tape, book) {
        Ok(Redrawn::Agrees { entries }) => count_entries(entries),
        Ok(Redrawn::Differs { serial }) => refuse(Refusal::RedrawDiffers, serial as u32),
        Err(refusal) => refuse(refusal, 0),
    }
}

// ---- which functions these are

// The header has the same number, so that a caller can tell a header and a library that don't belong together.
const VERSION: u32 = 1;

pub fn banlothek_version() -> u32
    ensures { result ≡ version }
{
    VERSION
}
