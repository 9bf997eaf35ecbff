// A call of every export, with plain parameters and with nothing shown first: one that came to demand something of its caller, or that said less
// of its answer, would leave the call here without its proof. Nothing calls these.
ghost use Rattle.std.specs.Prelude.{◌≡◌, [], ◌∷◌};
ghost use Rattle.kinds.specs.declared.Request.TheVariants.{Hypergeometric, Poisson, Geometric, StandardGeometric};
ghost use Rattle.banlothek.specs.Face.{DeliverTells, DrawTells, RedrawTells, StrikeTells, version};

use banlothek::BanlothekAnswer;

fn c_draw_hypergeometric(tape: &[u64], total: u64, marked: u64, sample: u64) -> BanlothekAnswer
    ensures { DrawTells (Hypergeometric total marked sample) tape.now result }
{
    crate::banlothek_draw_hypergeometric(tape, total, marked, sample)
}

fn c_draw_poisson(tape: &[u64], threshold: u64) -> BanlothekAnswer
    ensures { DrawTells (Poisson threshold) tape.now result }
{
    crate::banlothek_draw_poisson(tape, threshold)
}

fn c_draw_geometric(tape: &[u64], p: u64) -> BanlothekAnswer
    ensures { DrawTells (Geometric p) tape.now result }
{
    crate::banlothek_draw_geometric(tape, p)
}

fn c_draw_standard_geometric(tape: &[u64]) -> BanlothekAnswer
    ensures { DrawTells StandardGeometric tape.now result }
{
    crate::banlothek_draw_standard_geometric(tape)
}

fn c_deliver(
    tape: &[u64],
    book: &mut [u8],
    serial: u32,
    kind: u32,
    first: u64,
    second: u64,
    third: u64,
) -> BanlothekAnswer
    ensures { DeliverTells tape.now book.old serial kind (first ∷ second ∷ third ∷ []) result book.new }
{
    crate::banlothek_deliver(tape, book, serial, kind, first, second, third)
}

fn c_strike(tape: &[u64], book: &mut [u8], j: u64) -> BanlothekAnswer
    ensures { StrikeTells tape.now book.old j result book.new }
{
    crate::banlothek_strike(tape, book, j)
}

fn c_redraw(tape: &[u64], book: &[u8]) -> BanlothekAnswer
    ensures { RedrawTells tape.now book.now result }
{
    crate::banlothek_redraw(tape, book)
}

fn c_version() -> u32
    ensures { result ≡ version }
{
    crate::banlothek_version()
}
