// `Hypergeometric` of rand_distr's hypergeometric.rs, with its `InverseTransform` branch: the other branch needs ln and exp, whose last
// bits are the platform's.
#![tactic(auto)]

ghost use Rattle.std.specs.Prelude.{◌≡◌, ◌≤◌, ◌<◌};
ghost use Rattle.words.specs.Draw.{DrawAllows};
ghost use Rattle.hypergeometric.specs.Reduction.{population_cap, landing, flip, by_marked, reduction};
ghost use Rattle.hypergeometric.specs.Inner.{Lands, Small, Sizes};
ghost use Rattle.hypergeometric.specs.SetUp.{SetUpAllows};
ghost use Rattle.hypergeometric.specs.Inversion.{next_p, inverted};
ghost use Rattle.hypergeometric.specs.Hypergeometric.{from_kept, hypergeometric};

use first_probability::{first_probability, whole};
use std::marker::Model;
use std::ops::Neg;
use words::{Answer, Draw, Refusal};

// The largest population that is drawn from.
const CAP: u64 = 1_048_576;

// The set-up record: the reduction's numbers and the probability of x = 0. Each is one that the set-up gives, so a draw from it asks
// nothing more.
#[derive(Clone, Copy)]
pub struct Hypergeometric {
    n1: u64,
    n2: u64,
    k: u64,
    offset: u64,
    sign: Sign,
    first: f64,
}

impl Model for Hypergeometric {
    ghost use Rattle.hypergeometric.specs.Record.{Record};

    ghost Value = { Record };

    ghost use Rattle.hypergeometric.specs.SetUp.{FromSetUp};

    ghost view = { λ h. record { n1 = h.n1; n2 = h.n2; k = h.k; offset = h.offset; sign = h.sign; first = h.first } };

    ghost invariant = { λ h. FromSetUp (record { n1 = h.n1; n2 = h.n2; k = h.k; offset = h.offset; sign = h.sign; first = h.first }) };

    ghost inverse = { λ r. record { n1 = r.n1; n2 = r.n2; k = r.k; offset = r.offset; sign = r.sign; first = r.first } };
}

// ---- the draw

// The hypergeometric draw: the marked among sample_size things, taken without replacement from total_population_size things of which
// population_with_feature are marked. (The three one by one, here and at `set_up`: C and docs/PUBLIC.md have them so.)
pub fn sample(
    tape: &[u64],
    total_population_size: u64,
    population_with_feature: u64,
    sample_size: u64,
) -> Answer
    ensures { DrawAllows (hypergeometric total_population_size population_with_feature sample_size) tape.now result }
{
    // here, since 1 comes before the parameters' refusals; sample_from's own test is for its other callers
    if words::too_long(tape) {
        return Err(Refusal::TapeTooLong);
    }
    let kept = set_up(total_population_size, population_with_feature, sample_size)?;
    sample_from(tape, kept)
}

// The draw from a kept record, for a caller that draws many times from one tray.
pub fn sample_from(tape: &[u64], kept: Hypergeometric) -> Answer
    ensures { DrawAllows (from_kept kept) tape.now result }
{
    if words::too_long(tape) {
        return Err(Refusal::TapeTooLong);
    }
    let w = words::word_at(tape, 0).ok_or(Refusal::Exhausted)?;
    let x = kept.invert(words::fraction(w));
    let count = kept.sign.land(kept.offset, x);
    Ok(Draw { count, used: 1 })
}

// ---- the set-up

// `Hypergeometric::new`: the refusals that look at no word, and the record.
pub fn set_up(
    total_population_size: u64,
    population_with_feature: u64,
    sample_size: u64,
) -> Result<Hypergeometric, Refusal>
    ensures { SetUpAllows total_population_size population_with_feature sample_size result }
{
    if population_with_feature > total_population_size {
        return Err(Refusal::ProbabilityTooLarge);
    }
    if sample_size > total_population_size {
        return Err(Refusal::SampleSizeTooLarge);
    }
    if total_population_size > CAP {
        return Err(Refusal::CapExceeded);
    }
    let r = reduce(total_population_size, population_with_feature, sample_size);
    if (r.k + 1) * (r.n1 + 1) >= 10 * (total_population_size + 2) {
        return Err(Refusal::ModeTooHigh);
    }
    let first = first_probability(total_population_size, r.n1, r.n2, r.k);
    if first == 0.0 || !first.is_finite() {
        return Err(Refusal::PopulationTooLarge);
    }
    Ok(Hypergeometric {
        n1: r.n1,
        n2: r.n2,
        k: r.k,
        offset: r.offset,
        sign: r.sign,
        first,
    })
}

// ---- the reduction

// What the reduction leaves of a population, its marked and a sample of it. The record has these five fields again, and no `Reduced` within it:
// document 01's form of it is flat.
#[derive(Clone, Copy)]
struct Reduced {
    n1: u64,
    n2: u64,
    k: u64,
    offset: u64,
    sign: Sign,
}

// Marked and unmarked are exchanged so that n1 is the lesser; then a sample of more than half is exchanged with what it leaves, which
// has the rest of n1.
fn reduce(total_population_size: u64, population_with_feature: u64, sample_size: u64) -> Reduced
    requires within { (population_with_feature ≤ total_population_size) × (sample_size ≤ total_population_size) }
    requires cap { total_population_size ≤ population_cap }
    ensures is { result ≡ reduction total_population_size population_with_feature sample_size }
    ensures sizes { Sizes total_population_size result.n1 result.n2 result.k }
{
    let r = by_marked(total_population_size, population_with_feature, sample_size);
    if sample_size <= total_population_size / 2 {
        return r;
    }
    Reduced {
        k: total_population_size - sample_size,
        offset: r.sign.land(r.offset, r.n1),
        sign: -r.sign,
        ..r
    }
}

// With n1 = N - K it is the unmarked that are counted, and the marked are the rest of the sample. k is the sample so far.
fn by_marked(total_population_size: u64, population_with_feature: u64, sample_size: u64) -> Reduced
    requires { population_with_feature ≤ total_population_size }
    ensures { result ≡ by_marked total_population_size population_with_feature sample_size }
{
    let population_without_feature = total_population_size - population_with_feature;
    if population_with_feature > population_without_feature {
        Reduced {
            n1: population_without_feature,
            n2: population_with_feature,
            k: sample_size,
            offset: sample_size,
            sign: Sign::Minus,
        }
    } else {
        Reduced {
            n1: population_with_feature,
            n2: population_without_feature,
            k: sample_size,
            offset: 0,
            sign: Sign::Plus,
        }
    }
}

// The sign of x in offset + sign·x.
#[derive(Clone, Copy)]
enum Sign {
    Plus,
    Minus,
}

impl Sign {
    // offset + sign·x.
    fn land(self, offset: u64, x: u64) -> u64
        requires { Lands self offset x }
        ensures { result ≡ landing self offset x }
    {
        match self {
            Sign::Plus => offset + x,
            Sign::Minus => offset - x,
        }
    }
}

impl Neg for Sign {
    type Output = Sign;

    ghost neg_gives = { λ sign other. other ≡ flip sign };

    fn neg(self) -> Sign {
        match self {
            Sign::Plus => Sign::Minus,
            Sign::Minus => Sign::Plus,
        }
    }
}

// ---- the inversion

impl Hypergeometric {
    // The first x whose probability the fraction no longer exceeds, each smaller one's taken off before. Rounding can leave u above the
    // last p, so the bound is min(n1, k), where the support ends: the Rust walks on to k.
    fn invert(self, fraction: f64) -> u64
        ensures { result ≡ inverted self.n1 self.n2 self.k self.first fraction }
    {
        let bound = self.n1.min(self.k);
        let mut u = fraction;
        let mut p = self.first;
        let mut x: u64 = 0;
        // As a `for x in 0..bound` a draw from a kept (60, 24, 7) takes 4.0 instructions more: that row of docs/COSTS.md would be above the Rust's.
        while u > p && x < bound {
            u -= p;
            p = next_p(self.n1, self.n2, self.k, x, p);
            x += 1;
        }
        x
    }
}

// The probability of x + 1, from that of x. A function of the three numbers and no method: by them alone each whole number of the step is shown
// to be a float's, and from the record that would be shown anew at each operation.
fn next_p(n1: u64, n2: u64, k: u64, x: u64, p: f64) -> f64
    requires { Small n1 n2 k × (x < n1) × (x < k) }
    ensures { result ≡ next_p n1 n2 k x p }
{
    let up = (n1 - x) * (k - x);
    let down = (x + 1) * (n2 - k + 1 + x);
    p * whole(up) / whole(down)
}
