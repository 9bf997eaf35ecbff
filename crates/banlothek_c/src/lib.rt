// The library for C: each function of the crate banlothek under its own name, as include/banlothek.h declares it. Each only calls the one that
// it is named after, and promises what that one promises.
#![tactic(auto)]

mod heads;

ghost use Rattle.std.specs.Prelude.{◌≡◌, [], ◌∷◌};
ghost use Rattle.kinds.specs.declared.Request.TheVariants.{Hypergeometric, Poisson, Geometric, StandardGeometric};
ghost use Rattle.banlothek.specs.Face.{DeliverTells, DrawTells, RedrawTells, StrikeTells, version};

use banlothek::BanlothekAnswer;

// ---- draws

#[unsafe(no_mangle)]
pub extern "C" fn banlothek_draw_hypergeometric(
    tape: &[u64],
    total: u64,
    marked: u64,
    sample: u64,
) -> BanlothekAnswer
    ensures { DrawTells (Hypergeometric total marked sample) tape.now result }
{
    banlothek::banlothek_draw_hypergeometric(tape, total, marked, sample)
}

#[unsafe(no_mangle)]
pub extern "C" fn banlothek_draw_poisson(tape: &[u64], threshold_bits: u64) -> BanlothekAnswer
    ensures { DrawTells (Poisson threshold_bits) tape.now result }
{
    banlothek::banlothek_draw_poisson(tape, threshold_bits)
}

#[unsafe(no_mangle)]
pub extern "C" fn banlothek_draw_geometric(tape: &[u64], p_bits: u64) -> BanlothekAnswer
    ensures { DrawTells (Geometric p_bits) tape.now result }
{
    banlothek::banlothek_draw_geometric(tape, p_bits)
}

#[unsafe(no_mangle)]
pub extern "C" fn banlothek_draw_standard_geometric(tape: &[u64]) -> BanlothekAnswer
    ensures { DrawTells StandardGeometric tape.now result }
{
    banlothek::banlothek_draw_standard_geometric(tape)
}

// ---- the book

#[unsafe(no_mangle)]
pub extern "C" fn banlothek_deliver(
    tape: &[u64],
    book: &mut [u8],
    serial: u32,
    kind: u32,
    first: u64,
    second: u64,
    third: u64,
) -> BanlothekAnswer
    ensures { DeliverTells tape.now book.old serial kind (first ∷ second ∷ third ∷ []) result book.new }
{
    banlothek::banlothek_deliver(tape, book, serial, kind, first, second, third)
}

#[unsafe(no_mangle)]
pub extern "C" fn banlothek_strike(tape: &[u64], book: &mut [u8], j: u64) -> BanlothekAnswer
    ensures { StrikeTells tape.now book.old j result book.new }
{
    banlothek::banlothek_strike(tape, book, j)
}

#[unsafe(no_mangle)]
pub extern "C" fn banlothek_redraw(tape: &[u64], book: &[u8]) -> BanlothekAnswer
    ensures { RedrawTells tape.now book.now result }
{
    banlothek::banlothek_redraw(tape, book)
}

// ---- which functions these are

#[unsafe(no_mangle)]
pub extern "C" fn banlothek_version() -> u32
    ensures { result ≡ version }
{
    banlothek::banlothek_version()
}
