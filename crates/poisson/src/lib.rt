// `KnuthMethod` of rand_distr's poisson.rs: the product of fractions against a threshold that is handed in,
// since exp's last bits are the platform's.
#![tactic(auto)]

ghost use Rattle.std.specs.Prelude.{◌≡◌};
ghost use Rattle.std.specs.Float.{binary64};
ghost use Rattle.std.specs.Float.Ieee.{of_bits};
ghost use Rattle.words.specs.Rule.{reading};
ghost use Rattle.words.specs.Draw.{DrawAllows};
ghost use Rattle.words.specs.Paper.{paper};
ghost use Rattle.poisson.specs.Poisson.{knuth_rule, poisson};

use std::num::f64_to_bits_with_nan;
use words::{Answer, Draw, Refusal};

// The Poisson draw with the threshold exp_lambda, which is e^-lambda or any other number in the range.
pub fn sample(tape: &[u64], exp_lambda: f64) -> Answer
    ensures { DrawAllows (poisson exp_lambda) tape.now result }
{
    sample_bits(tape, f64_to_bits_with_nan(exp_lambda))
}

// The bits of 2^-18.
const LOWEST: u64 = 0x3ed0_0000_0000_0000;

// The bits of 1.
const HIGHEST: u64 = 0x3ff0_0000_0000_0000;

// The same with the threshold by its 64 bits, as it travels and is booked. Floats from 0 up stand in the order of their bits, and the bits
// of an infinity, a NaN or a float with a sign are above those of 1: so the bits are in their range where the float is in its. The test is
// of bits, since a float of any bits costs ten instructions a draw more: 51.0 for 41.0 at the threshold of lambda 0.25.
pub fn sample_bits(tape: &[u64], exp_lambda: u64) -> Answer
    ensures { DrawAllows (poisson (of_bits binary64 exp_lambda)) tape.now result }
{
    if words::too_long(tape) {
        return Err(Refusal::TapeTooLong);
    }
    // Two comparisons and no `contains`: of a number outside, that tells which end it is past only by way of whether the range is spent.
    if exp_lambda >= LOWEST && exp_lambda <= HIGHEST {
        return knuth_method(tape, f64::from_bits(exp_lambda));
    }
    Err(Refusal::ThresholdOutside)
}

// The product starts as the first fraction, and takes another while it is above the threshold; result counts those.
pub fn knuth_method(tape: &[u64], exp_lambda: f64) -> Answer
    ensures { paper result ≡ reading (knuth_rule exp_lambda) tape.now }
{
    let first = words::word_at(tape, 0).ok_or(Refusal::Exhausted)?;
    // Counted by hand: result is what is drawn, it starts before the second word is looked at, and a `for` would need to know where the tape ends,
    // which word_at alone says.
    let mut result: usize = 0;
    let mut p = words::fraction(first);
    while p > exp_lambda {
        let w = words::word_at(tape, result + 1).ok_or(Refusal::Exhausted)?;
        p *= words::fraction(w);
        result += 1;
    }
    Ok(Draw {
        count: result as u64,
        used: result + 1,
    })
}
