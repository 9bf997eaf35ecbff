// Draws of one request over one tape.
use crate::cases::Case;
use crate::tally::{Group, Tally};
use judge::{Verdict, is_same};
use kinds::Request;
use words::Answer;

// Draws again what the Rust drew, and where the request has a float, once more by it.
pub(crate) fn draw_single<P: Print>(case: Case<'_>, request: Request, tally: &mut Tally<P>) {
    let group = Group::of(request);
    let here = draws::draw(case.tape, request);
    let by_bits = here.map_err(u32::from);
    let by_float = draw_by_float(case.tape, request, here);
    if is_same(by_float, by_bits) {
        tally.hold(case, request, group, here);
    } else {
        tally.note(group, Verdict::Differs, by_float, "by bits", by_bits);
    }
}

// The draw of a threshold or a probability that is handed over as a float, and not by its bits; or what was drawn by bits, where there is
// neither.
fn draw_by_float(tape: &[u64], request: Request, by_bits: Answer) -> Answer {
    match request {
        Request::Poisson { threshold } => poisson::sample(tape, float_of(threshold)),
        Request::Geometric { p } => geometric::sample(tape, float_of(p)),
        _ => by_bits,
    }
}

// The bits of the infinity.
const INFINITY: u64 = 0x7ff0_0000_0000_0000;

// The sign's bit.
const SIGN: u64 = 0x8000_0000_0000_0000;

// The float of any bits. A NaN, which is above the infinity but for its sign, can't be made of its bits in a proved program: 0 over 0 stands
// for each.
fn float_of(bits: u64) -> f64 {
    if bits % SIGN <= INFINITY {
        return f64::from_bits(bits);
    }
    0.0 / 0.0
}
