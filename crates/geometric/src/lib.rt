// `Geometric` of rand_distr's geometric.rs.
#![tactic(auto)]

ghost use Rattle.std.specs.Prelude.{◌≡◌, true, [], ◌∷◌, ◌-◌, ◌≤◌, ◌^◌, length};
ghost use Rattle.std.specs.Float.{binary64};
ghost use Rattle.std.specs.Float.Ieee.{of_bits};
ghost use Rattle.words.specs.Words.{most_words};
ghost use Rattle.words.specs.Outcome.{drawn};
ghost use Rattle.words.specs.Rule.{reading};
ghost use Rattle.words.specs.Refusals.{◌on◌, given};
ghost use Rattle.words.specs.Draw.{DrawAllows};
ghost use Rattle.words.specs.Paper.{paper};
ghost use Rattle.geometric.specs.Geometric.{trivial_rule, is_large, geometric_reading, is_too_rare, geometric};

use std::num::f64_to_bits_with_nan;
use words::{Answer, Draw, Refusal};

// The geometric draw: failures before the first success of probability p.
pub fn sample(tape: &[u64], p: f64) -> Answer
    ensures { DrawAllows (geometric p) tape.now result }
{
    sample_bits(tape, f64_to_bits_with_nan(p))
}

// The bits of 1.
const ONE: u64 = 0x3ff0_0000_0000_0000;

// The bits of -0.0: the sign's alone.
const MINUS_ZERO: u64 = 0x8000_0000_0000_0000;

// The same with p by its 64 bits, as it travels and is booked. Floats from 0 up stand in the order of their bits, and the bits of an
// infinity, a NaN or a float with a sign are above those of 1. Of these only -0.0 is a probability: it equals 0, and no success ever comes.
// The test is of bits, since a float of any bits costs eight instructions a draw more: 55.8 for 47.8 at p = 0.75.
pub fn sample_bits(tape: &[u64], p: u64) -> Answer
    ensures { DrawAllows (geometric (of_bits binary64 p)) tape.now result }
{
    if words::too_long(tape) {
        return Err(Refusal::TapeTooLong);
    }
    if p <= ONE {
        return sample_valid(tape, f64::from_bits(p));
    }
    if p == MINUS_ZERO {
        return Ok(NEVER);
    }
    Err(Refusal::InvalidProbability)
}

// No success ever comes: the largest count, and no word is used.
const NEVER: Draw = Draw {
    count: u64::MAX,
    used: 0,
};

// The draw of a probability between 0 and 1.
// That the tape keeps to its limit is asked for: a type that says it would be made for one draw, and taken apart again by word_at, which takes
// the words as they are lent.
fn sample_valid(tape: &[u64], p: f64) -> Answer
    requires { length tape.now ≤ most_words }
    ensures { paper result ≡ given (9 on is_too_rare p ∷ []) (geometric_reading p tape.now) }
{
    if p >= 2.0 / 3.0 {
        return sample_trivial(tape, p);
    }
    let q = 1.0 - p;
    if q == 1.0 {
        return Ok(NEVER);
    }
    if q > MOST_Q {
        return Err(Refusal::TooRare);
    }
    search::sample_search(tape, search::square(q))
}

// The trivial algorithm: fractions above p are failures, until one is not. That p is large is asked for, since at a NaN this would stop, and the
// rules would go on: no fraction is above a NaN, and none is at most one.
fn sample_trivial(tape: &[u64], p: f64) -> Answer
    requires { is_large p ≡ true }
    ensures { paper result ≡ reading (trivial_rule p) tape.now }
{
    // Counted by hand: their number is what is drawn, and a `for` would need to know where the tape ends, which word_at alone says.
    let mut failures: usize = 0;
    while words::fraction(words::word_at(tape, failures).ok_or(Refusal::Exhausted)?) > p {
        failures += 1;
    }
    Ok(Draw {
        count: failures as u64,
        used: failures + 1,
    })
}

// The largest q that 31 squarings bring to 0.5 or below: 9007199251833722 / 2^53.
const MOST_Q: f64 = 0.9999999996772282;
