// Text that is parted at its spaces: its words.
#![tactic(auto)]

ghost use Rattle.std.specs.Prelude.{◌≡◌, ◌≤◌, length, drop};
ghost use Rattle.numerals.specs.Split.{past};
ghost use Rattle.parted.specs.Parts.{space, past_words, word};

// What parts two words.
pub const SPACE: u8 = b' ';

// The word k, the first being 0; nothing past the last.
pub fn word(text: &[u8], k: usize) -> &[u8]
    ensures { result.now ≡ word k text.now }
{
    text.split(|byte| *byte == SPACE).nth(k).unwrap_or(&[])
}

// Where the bytes after the first word begin.
fn second_at(text: &[u8]) -> usize
    ensures { (result ≤ length text.now) × (drop result text.now ≡ past space text.now) }
{
    match text.iter().position(|byte| *byte == SPACE) {
        Some(i) => i + 1,
        None => text.len(),
    }
}

// Where the bytes after the first k words begin.
pub fn start_of(text: &[u8], k: usize) -> usize
    ensures { (result ≤ length text.now) × (drop result text.now ≡ past_words k text.now) }
{
    let mut at = 0;
    for _ in 0..k {
        at += second_at(&text[at..]);
    }
    at
}
