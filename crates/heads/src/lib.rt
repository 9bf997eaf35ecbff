// A call of every entry point of every crate, with plain parameters and with nothing shown first: an entry point that came to demand
// something of its caller, or that said less of its answer than the demands speak of, would leave the call here without its proof.
// Nothing calls these.
#![tactic(auto)]

ghost use Rattle.std.specs.Prelude.{◌≡◌, [], ◌∷◌};
ghost use Rattle.std.specs.Float.{binary64};
ghost use Rattle.std.specs.Float.Ieee.{of_bits};
ghost use Rattle.words.specs.Draw.{DrawAllows};
ghost use Rattle.kinds.specs.declared.Request.TheVariants as kind;
ghost use Rattle.poisson.specs.Poisson.{poisson};
ghost use Rattle.quarters.specs.Quarters.{quarters};
ghost use Rattle.geometric.specs.Geometric.{geometric};
ghost use Rattle.standard_geometric.specs.Standard.{standard_geometric};
ghost use Rattle.hypergeometric.specs.SetUp.{SetUpAllows};
ghost use Rattle.hypergeometric.specs.Hypergeometric.{from_kept, hypergeometric};
ghost use Rattle.draws.specs.Request.{Answers};
ghost use Rattle.book.specs.Deliver.{DeliverAllows};
ghost use Rattle.book.specs.Strike.{StrikeAllows};
ghost use Rattle.redraws.specs.Redraw.{RedrawAllows};
ghost use Rattle.book_lines.specs.Listing.{ListingAllows};
ghost use Rattle.service.specs.Service.{ServeAllows};
ghost use Rattle.banlothek.specs.Face.{DrawTells, DeliverTells, StrikeTells, RedrawTells, version};

use answer_lines::ANSWER_BYTES;
use banlothek::BanlothekAnswer;
use book::Delivered;
use book_lines::LISTING_BYTES;
use hypergeometric::Hypergeometric;
use kinds::Request;
use redraws::Redrawn;
use service::Served;
use words::{Answer, Refusal};

// ---- draws

fn poisson_by_float(tape: &[u64], threshold: f64) -> Answer
    ensures { DrawAllows (poisson threshold) tape.now result }
{
    poisson::sample(tape, threshold)
}

fn poisson_by_bits(tape: &[u64], threshold: u64) -> Answer
    ensures { DrawAllows (poisson (of_bits binary64 threshold)) tape.now result }
{
    poisson::sample_bits(tape, threshold)
}

fn geometric_by_float(tape: &[u64], p: f64) -> Answer
    ensures { DrawAllows (geometric p) tape.now result }
{
    geometric::sample(tape, p)
}

fn geometric_by_bits(tape: &[u64], p: u64) -> Answer
    ensures { DrawAllows (geometric (of_bits binary64 p)) tape.now result }
{
    geometric::sample_bits(tape, p)
}

fn standard_geometric_draw(tape: &[u64]) -> Answer
    ensures { DrawAllows standard_geometric tape.now result }
{
    standard_geometric::sample(tape)
}

fn quarters_draw(tape: &[u64], j: u64) -> Answer
    ensures { DrawAllows (quarters «j») tape.now result }
{
    quarters::sample(tape, j)
}

fn hypergeometric_draw(tape: &[u64], total: u64, marked: u64, sample: u64) -> Answer
    ensures { DrawAllows (hypergeometric total marked sample) tape.now result }
{
    hypergeometric::sample(tape, total, marked, sample)
}

fn tray_set_up(total: u64, marked: u64, sample: u64) -> Result<Hypergeometric, Refusal>
    ensures { SetUpAllows total marked sample result }
{
    hypergeometric::set_up(total, marked, sample)
}

fn kept_draw(tape: &[u64], kept: Hypergeometric) -> Answer
    ensures { DrawAllows (from_kept kept) tape.now result }
{
    hypergeometric::sample_from(tape, kept)
}

fn draw(tape: &[u64], request: Request) -> Answer
    ensures { Answers request tape.now result }
{
    draws::draw(tape, request)
}

// ---- the book

fn deliver(
    tape: &[u64],
    book: &mut [u8],
    serial: u32,
    request: Request,
) -> Result<Delivered, Refusal>
    ensures { DeliverAllows tape.now book.old serial request result book.new }
{
    book::deliver(tape, book, serial, request)
}

fn strike(tape: &[u64], book: &mut [u8], j: u64) -> Result<u64, Refusal>
    ensures { StrikeAllows tape.now book.old j result book.new }
{
    book::strike(tape, book, j)
}

fn redraw(tape: &[u64], book: &[u8]) -> Result<Redrawn, Refusal>
    ensures { RedrawAllows tape.now book.now result }
{
    redraws::redraw(tape, book)
}

// ---- the programs' calls

fn listing(book: &[u8], out: &mut [u8; LISTING_BYTES]) -> usize
    ensures { ListingAllows book.now out.old result out.new }
{
    book_lines::listing(book, out)
}

fn serve(
    tape: &[u64],
    book: &mut [u8],
    number: u64,
    line: &[u8],
    out: &mut [u8; ANSWER_BYTES],
) -> Served
    ensures { ServeAllows tape.now book.old number line.now out.old result.length result.changed book.new out.new }
{
    service::serve(tape, book, number, line, out)
}

// ---- the C functions, of the crate banlothek; the exports of banlothek_c are called there likewise, since a library for C is no crate that another
// calls

fn c_draw_hypergeometric(tape: &[u64], total: u64, marked: u64, sample: u64) -> BanlothekAnswer
    ensures { DrawTells (kind.Hypergeometric total marked sample) tape.now result }
{
    banlothek::banlothek_draw_hypergeometric(tape, total, marked, sample)
}

fn c_draw_poisson(tape: &[u64], threshold: u64) -> BanlothekAnswer
    ensures { DrawTells (kind.Poisson threshold) tape.now result }
{
    banlothek::banlothek_draw_poisson(tape, threshold)
}

fn c_draw_geometric(tape: &[u64], p: u64) -> BanlothekAnswer
    ensures { DrawTells (kind.Geometric p) tape.now result }
{
    banlothek::banlothek_draw_geometric(tape, p)
}

fn c_draw_standard_geometric(tape: &[u64]) -> BanlothekAnswer
    ensures { DrawTells kind.StandardGeometric tape.now result }
{
    banlothek::banlothek_draw_standard_geometric(tape)
}

fn c_deliver(
    tape: &[u64],
    book: &mut [u8],
    serial: u32,
    kind: u32,
    first: u64,
    second: u64,
    third: u64,
) -> BanlothekAnswer
    ensures { DeliverTells tape.now book.old serial kind (first ∷ second ∷ third ∷ []) result book.new }
{
    banlothek::banlothek_deliver(tape, book, serial, kind, first, second, third)
}

fn c_strike(tape: &[u64], book: &mut [u8], j: u64) -> BanlothekAnswer
    ensures { StrikeTells tape.now book.old j result book.new }
{
    banlothek::banlothek_strike(tape, book, j)
}

fn c_redraw(tape: &[u64], book: &[u8]) -> BanlothekAnswer
    ensures { RedrawTells tape.now book.now result }
{
    banlothek::banlothek_redraw(tape, book)
}

fn c_version() -> u32
    ensures { result ≡ version }
{
    banlothek::banlothek_version()
}
