// Numbers read from text, in ASCII: whole numbers, decimals and the bits of a float. None: the text is no such number.
#![tactic(auto)]

ghost use Rattle.std.specs.Prelude.{◌≡◌, ◌^◌, ◌≤◌, ◌<◌};
ghost use Rattle.numerals.specs.Digits.{continued, number};
ghost use Rattle.numerals.specs.Decimal.{decimal_bits, float_bits, nearest_bits};
ghost use Rattle.numerals.specs.Inner.{placed};

// The largest whole number that a decimal's digits may spell: below it every whole number is a float exactly.
const MOST_WHOLE: u64 = 999_999_999_999_999;

// The most digits after a decimal's point.
const MOST_PLACES: usize = 15;

// Reads digits that go on from those of `start`, up to `most`. By hand: `parse` takes a `+` before the digits, and starts anew at 0.
fn go_on(text: &[u8], base: u32, start: u64, most: u64) -> Option<u64>
    requires { (2 ≤ base) × (base ≤ 16) × (start ≤ most) }
    ensures { result ≡ continued base start most text.now }
{
    let mut value = start;
    for byte in text {
        let next = char::from(*byte).to_digit(base)?;
        value = value
            .checked_mul(u64::from(base))?
            .checked_add(u64::from(next))?;
        if most < value {
            return None;
        }
    }
    Some(value)
}

// One digit or more of a base.
#[tactic(auto, using(crate::proofs::Reading::number_empty, crate::proofs::Reading::number_digits))]
fn digits(text: &[u8], base: u32, most: u64) -> Option<u64>
    requires { (2 ≤ base) × (base ≤ 16) }
    ensures { result ≡ number base most text.now }
{
    if text.is_empty() {
        return None;
    }
    go_on(text, base, 0, most)
}

// A whole number up to `most` by its decimal digits, leading zeros allowed.
pub fn whole_number(text: &[u8], most: u64) -> Option<u64>
    ensures { result ≡ number 10 most text.now }
{
    digits(text, 10, most)
}

// The bits of a / b, rounded once: both casts are exact.
fn nearest(a: u64, b: u64) -> u64
    requires { (a ≤ 2 ^ 53) × (0 < b) × (b ≤ 2 ^ 53) }
    ensures { result ≡ nearest_bits a b }
{
    f64::to_bits((a as f64) / (b as f64))
}

// A decimal's bits, from the whole number before its point and the digits after it.
#[tactic(auto, using(crate::proofs::Reading::placed_empty, crate::proofs::Reading::placed_long, crate::proofs::Reading::placed_unread, crate::proofs::Reading::placed_is))]
fn with_places(whole: u64, places: &[u8]) -> Option<u64>
    requires { whole < 10 ^ 15 }
    ensures { result ≡ placed whole places.now }
{
    if places.is_empty() || MOST_PLACES < places.len() {
        return None;
    }
    let all = go_on(places, 10, whole, MOST_WHOLE)?;
    Some(nearest(all, 10u64.pow(places.len() as u32)))
}

// The bits of the float nearest to a decimal.
fn decimal_bits(text: &[u8]) -> Option<u64>
    ensures { result ≡ decimal_bits text.now }
{
    let Some(point) = text.iter().position(|byte| *byte == b'.') else {
        let whole = digits(text, 10, MOST_WHOLE)?;
        return Some(nearest(whole, 1));
    };
    let whole = digits(&text[..point], 10, MOST_WHOLE)?;
    with_places(whole, &text[point + 1..])
}

// The bits of a float by its text: a decimal, or `0x` and the bits in 16 hexadecimal digits.
#[tactic(auto, using(crate::proofs::Reading::float_hexadecimal, crate::proofs::Reading::float_long, crate::proofs::Reading::float_other))]
pub fn float_bits(text: &[u8]) -> Option<u64>
    ensures { result ≡ float_bits text.now }
{
    match text.strip_prefix(b"0x") {
        Some(bits) if bits.len() == 16 => digits(bits, 16, u64::MAX),
        _ => decimal_bits(text),
    }
}
