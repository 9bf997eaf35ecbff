// The search of the geometric draw for p below 2/3: q squared until it is at most a half, the first run, and the remainder.
#![tactic(auto)]

ghost use Rattle.std.specs.Prelude.{◌≡◌, false, ◌≤◌, ◌^◌, length, drop};
ghost use Rattle.std.specs.Float.Ieee.{lt};
ghost use Rattle.words.specs.Words.{most_words, ratio};
ghost use Rattle.words.specs.Rule.{more, read, reading};
ghost use Rattle.words.specs.Paper.{paper};
ghost use Rattle.search.specs.Power.{power_of};
ghost use Rattle.search.specs.Squares.{squares};
ghost use Rattle.search.specs.Search.{search_rule, remainder_word};

use words::{Answer, Draw, Refusal};

// q, the number k of its squarings, 31 at most, and what they come to.
#[derive(Clone, Copy)]
pub struct Squared {
    pub q: f64,
    pub k: u32,
    pub pi: f64,
    pub ghost most: { k ≤ 31 },
}

// The smallest number of squarings, at least one, that brings q to 0.5 or below. Since q is not above MOST_Q it is at most 31.
pub fn square(q: f64) -> Squared
    requires { (lt (ratio 9007199251833722 (2 ^ 53)) q ≡ false) × (lt q (ratio 1 4) ≡ false) }
    ensures { (result.q ≡ q) × (result.k ≡ (squares q).k) × (result.pi ≡ (squares q).pi) }
{
    let mut pi = q * q;
    // The squarings are counted by hand, since their number is asked for.
    let mut k: u32 = 1;
    while pi > 0.5 {
        pi *= pi;
        k += 1;
    }
    Squared { q, k, pi }
}

// d by the trivial algorithm from pi, and then the remainder.
// That the tape keeps to its limit is asked for: a type that says it would be made for one draw, and taken apart again by word_at, which takes
// the words as they are lent.
pub fn sample_search(tape: &[u64], squared: Squared) -> Answer
    requires { length tape.now ≤ most_words }
    ensures { paper result ≡ reading (search_rule squared.q (2 ^ squared.k) squared.pi) tape.now }
{
    // Counted by hand: d is a part of what is drawn, it starts before the first word is looked at, and a `for` would need to know where the tape
    // ends, which word_at alone says.
    let mut d: usize = 0;
    while words::fraction(words::word_at(tape, d).ok_or(Refusal::Exhausted)?) < squared.pi {
        d += 1;
    }
    sample_remainder(tape, squared, d as u64, d + 1)
}

// The search for the remainder, from the place at on: m is any number below 2^k, taken with probability q^m. A word modulo 2^k is its
// lowest k bits.
fn sample_remainder(tape: &[u64], squared: Squared, d: u64, at: usize) -> Answer
    requires { d ≤ most_words }
    ensures { paper result ≡ read (search_rule squared.q (2 ^ squared.k) squared.pi) (drop at tape.now) (more (remainder_word d)) at }
{
    let span = 1u64 << squared.k;
    let mask = span - 1;
    // A loop that gives m by a break, and ends with the tape otherwise: RULES, 'Forms', keeps it so.
    let mut i = at;
    let m = loop {
        let w = words::word_at(tape, i).ok_or(Refusal::Exhausted)?;
        let m = w & mask;
        let v = words::word_at(tape, i + 1).ok_or(Refusal::Exhausted)?;
        i += 2;
        if words::fraction(v) < power(1.0, squared.q, m) {
            break m;
        }
    };
    let count = d * span + m;
    Ok(Draw { count, used: i })
}

// r times a^b, by halving b: 1.0 and q give q^b. A recursion, as RULES, 'Forms', keeps it.
fn power(r: f64, a: f64, b: u64) -> f64
    ensures { result ≡ power_of r a b }
{
    let r = if b % 2 == 1 { r * a } else { r };
    let b = b / 2;
    if b == 0 { r } else { power(r, a * a, b) }
}
