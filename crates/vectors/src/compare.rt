// Comparing a draw here with the Rust's.
use judge::{Said, Verdict, judge};
use kinds::Request;
use words::Answer;

// The entry of docs/DIFFERENCES.md for a count of the Rust that is outside the support.
const PAST_SUPPORT: u64 = 1;

// A count above this is one that the Rust wrapped below 0: no tray that is drawn from has as many things.
const MOST_COUNT: u64 = 0x7fff_ffff_ffff_ffff;

// The verdict on a draw. Where the Rust walked past the support, the draw here has to stand at the end that it passed.
pub(crate) fn compare(request: Request, here: Answer, rust: Said) -> Verdict {
    match judge(request, here, rust) {
        Verdict::Listed {
            entry: PAST_SUPPORT,
        } if !is_at_end(request, here, rust) => Verdict::Differs,
        verdict => verdict,
    }
}

fn is_at_end(request: Request, here: Answer, rust: Said) -> bool {
    let Request::Hypergeometric {
        total,
        marked,
        sample,
    } = request
    else {
        return false;
    };
    let (Ok(drawn), Ok(drew)) = (here, rust) else {
        return false;
    };
    drawn.count == end_passed(total, marked, sample, drew.count)
}

// The end of a tray's support that the Rust passed with this count: as many as the smaller of marked and sampled, or as many as the sample
// has beyond the unmarked.
fn end_passed(total: u64, marked: u64, sample: u64, count: u64) -> u64 {
    let most = marked.min(sample);
    if marked > total {
        return most;
    }
    let least = sample.saturating_sub(total - marked);
    if count < least || count > MOST_COUNT {
        least
    } else {
        most
    }
}
