// Whether a draw here is what the Rust drew over the same words, and where it isn't, which entry of docs/DIFFERENCES.md says so.
#![tactic(auto)]

ghost use Rattle.std.specs.Prelude.{◌≡◌};
ghost use Rattle.words.specs.Paper.{paper};
ghost use Rattle.judge.specs.Judging.{rust_did, same, alike, outside_tray, is_outside, apart, judged, mean_judged, as_marked};
ghost use Rattle.judge.specs.Judging as rules;

use kinds::Request;
use words::{Answer, Draw, Refusal};

// What the Rust did. `Ok` is its draw. `Err` says that it left no draw to compare with, since it stopped or chose a branch that is not taken here; the
// number is that of the refusal that a draw here has to give then. (A number and no `Refusal`: a case may name any act, and one that stands for
// nothing is 0, which is no refusal's number.)
pub type Said = Result<Draw, u32>;

// What comes of comparing: the same answer, a difference that an entry of docs/DIFFERENCES.md lists, or one that none does. (Entries are numbers:
// that page's own, by which cases name them.)
#[derive(Clone, Copy, PartialEq, Eq)]
pub enum Verdict {
    Agrees,
    Listed { entry: u64 },
    Differs,
}

// What a case says that the Rust did, by its number; oracle/README.md has the numbers. (A number and no enum: it is a case file's word, and any may
// stand there.)
#[tactic(auto, unfolding(crate::specs::Judging::rust_did))]
pub fn rust_did(act: u64, count: u64, used: usize) -> Said
    ensures { rules.said result ≡ rust_did act count used }
{
    let refusal = match act {
        0 => return Ok(Draw { count, used }),
        1 => Refusal::Exhausted,
        2 => Refusal::ProbabilityTooLarge,
        3 => Refusal::SampleSizeTooLarge,
        4 => Refusal::PopulationTooLarge,
        5 => Refusal::InvalidProbability,
        6 => Refusal::ModeTooHigh,
        7 => Refusal::TooRare,
        // no refusal has the number 0
        _ => return Err(0),
    };
    Err(u32::from(refusal))
}

// Compares a draw here with the Rust's.
#[tactic(auto, unfolding(crate::specs::Judging::judged))]
pub fn judge(request: Request, here: Answer, rust: Said) -> Verdict
    ensures { result ≡ judged request (paper here) (rules.said rust) }
{
    if is_same(here, rust) {
        judge_same(here)
    } else {
        set_apart(request, here, rust)
    }
}

// Holds a verdict against the entry that the case names. (0 and no Option: it is a case file's word for no entry.)
pub fn as_marked(entry: u64, verdict: Verdict) -> Verdict
    ensures { result ≡ as_marked entry verdict }
{
    match verdict {
        Verdict::Agrees if entry == 0 => Verdict::Agrees,
        Verdict::Listed { entry: found } if entry == found => verdict,
        _ => Verdict::Differs,
    }
}

// Compares the draw of a mean in quarters with the Rust's of the same mean, whose threshold is its platform's: with that threshold too the mean
// is drawn here, and has to be drawn as the Rust did.
#[tactic(auto, unfolding(crate::specs::Judging::mean_judged))]
pub fn judge_mean(here: Answer, with_its_threshold: Answer, rust: Said) -> Verdict
    ensures { result ≡ mean_judged (paper here) (paper with_its_threshold) (rules.said rust) }
{
    if !is_same(with_its_threshold, rust) {
        return Verdict::Differs;
    }
    if is_same(here, rust) {
        return Verdict::Agrees;
    }
    Verdict::Listed { entry: 11 }
}

// Whether two answers are the same: the same count from as many words, or the same refusal.
pub fn is_same(here: Answer, rust: Said) -> bool
    ensures { result ≡ same (paper here) (rules.said rust) }
{
    here.map_err(u32::from) == rust
}

// Answers that are the same agree, but for a refusal in the place of a draw of the Rust's that is not taken.
fn judge_same(here: Answer) -> Verdict
    ensures { result ≡ alike (paper here) }
{
    match here {
        Err(Refusal::ModeTooHigh) => Verdict::Listed { entry: 10 },
        Err(Refusal::TooRare) => Verdict::Listed { entry: 4 },
        _ => Verdict::Agrees,
    }
}

// Which entry lists answers that aren't the same: the Rust has neither of the two refusals, and draws what is outside a tray's support.
fn set_apart(request: Request, here: Answer, rust: Said) -> Verdict
    ensures { result ≡ apart request (paper here) (rules.said rust) }
{
    match (here, rust) {
        (Err(Refusal::ThresholdOutside), _) => Verdict::Listed { entry: 5 },
        (Err(Refusal::CapExceeded), _) => Verdict::Listed { entry: 9 },
        (Ok(drawn), Ok(drew)) if is_outside(request, drew.count) && drawn.used == drew.used => {
            Verdict::Listed { entry: 1 }
        }
        _ => Verdict::Differs,
    }
}

// Whether the Rust's count is one that the tray can't have. Of the kinds that the Rust draws, only a tray has a support.
fn is_outside(request: Request, count: u64) -> bool
    ensures { result ≡ is_outside request count }
{
    match request {
        Request::Hypergeometric {
            total,
            marked,
            sample,
        } => outside_support(total, marked, sample, count),
        _ => false,
    }
}

// Neither more than the sample or the marked, nor so few that the sample would have more unmarked than there are.
fn outside_support(total: u64, marked: u64, sample: u64, count: u64) -> bool
    ensures { result ≡ outside_tray total marked sample count }
{
    count > sample || count > marked || marked > total || sample - count > total - marked
}
