// The name of a refusal, as text.
#![tactic(auto)]

ghost use Rattle.std.specs.Prelude.{◌≡◌, [], ◌∷◌, ◌++◌, ◌+◌, ◌≤◌, length};
ghost use Rattle.words.specs.Paper.{number_of};
ghost use Rattle.writing.specs.Writing.{Writes};
ghost use Rattle.names.specs.Names.{name_of};

use parted::word;
use words::Refusal;
use writing::put_text;

// The names in the order of their numbers, each after a space, so that the word of a refusal's number is its name.
const NAMES: [u8; 246] = *b" \
    TapeTooLong \
    PopulationTooLarge \
    ProbabilityTooLarge \
    SampleSizeTooLarge \
    CapExceeded \
    ModeTooHigh \
    ThresholdOutside \
    InvalidProbability \
    TooRare \
    Exhausted \
    BookTooLong \
    BookDamaged \
    SerialAhead \
    SerialReused \
    BookFull \
    StrikeTooMany \
    RedrawDiffers \
    MeanOutside";

// Writes a refusal's name and the byte that ends it, a space or a newline; answers the place after them. No name has more than 19 letters.
pub fn put_name(out: &mut [u8], at: usize, refusal: Refusal, end: u8) -> usize
    requires { at + 20 ≤ length out.old }
    ensures { Writes out.old at (name_of (number_of refusal) ++ (end ∷ [])) out.new result }
{
    let next = put_text(out, at, word(&NAMES, u32::from(refusal) as usize));
    out[next] = end;
    next + 1
}
