// Numbers in lent bytes, the lowest byte first, and zeros: one read and one write for every width; the words of a tape.
#![tactic(auto)]

ghost use Rattle.std.specs.Prelude.{◌≡◌, ◌+◌, ◌*◌, ◌≤◌, length, drop};
ghost use Rattle.std.proofs.lemmas.List.Edits.{sets};
ghost use Rattle.bytes_le.specs.LittleEndian.{bytes_of, spelled, words_from};
ghost use Rattle.bytes_le.specs.Zeros.{all_zero, wiped};

// The number that `width` bytes spell from `at` on.
pub fn read_le(bytes: &[u8], at: usize, width: usize) -> u64
    requires { (width ≤ 8) × (at + width ≤ length bytes.now) }
    ensures { result ≡ spelled width (drop at bytes.now) }
{
    let mut number: u64 = 0;
    for byte in bytes[at..at + width].iter().rev() {
        number = number * 256 + u64::from(*byte);
    }
    number
}

// Writes the lowest `width` bytes of the number from `at` on.
pub fn write_le(bytes: &mut [u8], at: usize, width: usize, number: u64)
    requires { at + width ≤ length bytes.old }
    ensures { bytes.new ≡ sets bytes.old at (bytes_of width number) }
{
    let mut left = number;
    for byte in bytes[at..at + width].iter_mut() {
        *byte = (left % 256) as u8;
        left /= 256;
    }
}

// Whether every byte from `from` on is 0. No caller knows more of it than this contract. Here and in `wipe` places stand beside the bytes, and not
// a part of them: docs/PUBLIC.md names both functions, and their contracts speak of places in a book.
pub fn all_zero(bytes: &[u8], from: usize) -> bool
    requires { from ≤ length bytes.now }
    ensures { result ≡ all_zero (drop from bytes.now) }
{
    // A loop of five instructions, and not `all`: what the compiler makes of that is longer, and where it falls over a line of the cache, as one place
    // in four lets it, the walk takes half as long again.
    for byte in &bytes[from..] {
        if *byte != 0 {
            return false;
        }
    }
    true
}

// The bytes from `from` up to `to` become 0.
pub fn wipe(bytes: &mut [u8], from: usize, to: usize)
    requires { (from ≤ to) × (to ≤ length bytes.old) }
    ensures { bytes.new ≡ wiped from to bytes.old }
{
    bytes[from..to].fill(0);
}

// Reads k words of 8 bytes each into a lent tape, from `at` on. By places: in a zip of that part with the bytes by eights the words stored stand
// in what the iterator lent, and no proof that the tape has them was found.
pub fn read_words(bytes: &[u8], k: usize, tape: &mut [u64], at: usize)
    requires { (8 * k ≤ length bytes.now) × (at + k ≤ length tape.old) }
    ensures { tape.new ≡ sets tape.old at (words_from k bytes.now) }
{
    for i in 0..k {
        tape[at + i] = read_le(bytes, 8 * i, 8);
    }
}
