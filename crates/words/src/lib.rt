// What every draw shares: a word of the tape by its place, the fraction of a word, the refusals, and a draw's answer.
#![tactic(auto)]

ghost use Rattle.std.specs.Prelude.{◌≡◌};
ghost use Rattle.words.specs.Words.{fraction_of, too_long};
ghost use Rattle.words.specs.Inner.{word_at, is_short};
ghost use Rattle.words.specs.Paper.{number_of};

// Why a call was refused: every name of the table of refusals, in the order of its numbers.
#[derive(Clone, Copy, PartialEq, Eq)]
pub enum Refusal {
    TapeTooLong,
    PopulationTooLarge,
    ProbabilityTooLarge,
    SampleSizeTooLarge,
    CapExceeded,
    ModeTooHigh,
    ThresholdOutside,
    InvalidProbability,
    TooRare,
    Exhausted,
    BookTooLong,
    BookDamaged,
    SerialAhead,
    SerialReused,
    BookFull,
    StrikeTooMany,
    RedrawDiffers,
    MeanOutside,
}

// What was drawn: the count, and the number of words that the draw used.
#[derive(Clone, Copy, PartialEq, Eq)]
pub struct Draw {
    pub count: u64,
    pub used: usize,
}

// What a draw answers: what was drawn, or why nothing was.
pub type Answer = Result<Draw, Refusal>;

// The number of a refusal, as the table of refusals has it.
impl From<Refusal> for u32 {
    ghost from_gives = { λ refusal number. number ≡ number_of refusal };

    fn from(refusal: Refusal) -> u32 {
        match refusal {
            Refusal::TapeTooLong => 1,
            Refusal::PopulationTooLarge => 2,
            Refusal::ProbabilityTooLarge => 3,
            Refusal::SampleSizeTooLarge => 4,
            Refusal::CapExceeded => 5,
            Refusal::ModeTooHigh => 6,
            Refusal::ThresholdOutside => 7,
            Refusal::InvalidProbability => 8,
            Refusal::TooRare => 9,
            Refusal::Exhausted => 10,
            Refusal::BookTooLong => 11,
            Refusal::BookDamaged => 12,
            Refusal::SerialAhead => 13,
            Refusal::SerialReused => 14,
            Refusal::BookFull => 15,
            Refusal::StrikeTooMany => 16,
            Refusal::RedrawDiffers => 17,
            Refusal::MeanOutside => 18,
        }
    }
}

// Whether a refusal, by its number, is one by which a reading may run out of words.
// It takes any number and no `Refusal`: docs/PUBLIC.md promises its answer for each u32, those that are no refusal's included.
pub fn is_short(number: u32) -> bool
    ensures { result ≡ is_short number }
{
    matches!(number, 10)
}

// The most words that a tape may have.
pub const MOST_WORDS: usize = 1_048_576;

// Whether the tape has more words than a tape may have.
pub fn too_long(tape: &[u64]) -> bool
    ensures { result ≡ too_long tape.now }
{
    MOST_WORDS < tape.len()
}

// The word at place i, or that the tape has ended. Every draw reads its words through this function and no other,
// so that another kind of tape changes this function alone.
pub fn word_at(tape: &[u64], i: usize) -> Option<u64>
    ensures { result ≡ word_at tape.now i }
{
    tape.get(i).copied()
}

// The fraction of a word: its upper 53 bits over 2^53. Both the cast and the division are exact.
pub fn fraction(w: u64) -> f64
    ensures { result ≡ fraction_of w }
{
    ((w / 2048) as f64) / 9007199254740992.0
}
