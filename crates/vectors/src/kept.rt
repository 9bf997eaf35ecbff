// Draws from a kept tray: one that is set up once, and drawn from many times.
use crate::cases::{Case, Unread};
use crate::compare::compare;
use crate::tally::{Group, Tally};
use hypergeometric::Hypergeometric;
use judge::{Verdict, is_same};
use kinds::Request;
use words::{Draw, Refusal};

// Sets the tray up, and draws from it again.
pub(crate) fn draw_kept<P: Print>(case: Case<'_>, tally: &mut Tally<P>) -> Result<(), Unread> {
    let request = Request::Hypergeometric {
        total: case.first,
        marked: case.second,
        sample: case.third,
    };
    match hypergeometric::set_up(case.first, case.second, case.third) {
        Ok(kept) => draw_ready(case, request, kept, tally),
        Err(refusal) => {
            tally.hold(case, request, Group::Kept, Err(refusal));
            Ok(())
        }
    }
}

fn draw_ready<P: Print>(
    case: Case<'_>,
    request: Request,
    kept: Hypergeometric,
    tally: &mut Tally<P>,
) -> Result<(), Unread> {
    // over no word it has to be refused: the tape has ended. (tests/vectors changes this slice in a copy of the program, so that it has a word.)
    let tape = [0u64];
    let here = hypergeometric::sample_from(&tape[..0], kept);
    let due = Err(u32::from(Refusal::Exhausted));
    if !is_same(here, due) {
        tally.note(Group::Kept, Verdict::Differs, here, "over no word", due);
    }
    if case.rust.is_err() {
        // the Rust stopped at a tray that is set up here: nothing is drawn, and a count of 0 over no word stands for the set-up
        let here = Ok(Draw { count: 0, used: 0 });
        tally.note(Group::Kept, Verdict::Differs, here, "rust", case.rust);
        return Ok(());
    }
    draw_pairs(request, kept, case.tape, tally)
}

// Pairs of a word and the Rust's count over it.
fn draw_pairs<P: Print>(
    request: Request,
    kept: Hypergeometric,
    pairs: &[u64],
    tally: &mut Tally<P>,
) -> Result<(), Unread> {
    let (pairs, left) = pairs.as_chunks::<2>();
    for [word, count] in pairs {
        let here = hypergeometric::sample_from(&[*word], kept);
        let rust = Ok(Draw {
            count: *count,
            used: 1,
        });
        tally.note(
            Group::Kept,
            compare(request, here, rust),
            here,
            "rust",
            rust,
        );
    }
    if left.is_empty() { Ok(()) } else { Err(Unread) }
}
