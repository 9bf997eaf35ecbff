// Text written into lent bytes, in ASCII: a text as it is, and a number by its decimal digits.
#![tactic(auto)]

ghost use Rattle.std.specs.Prelude.{[], ◌∷◌, ◌+◌, ◌≤◌, ◌<◌, length};
ghost use Rattle.writing.specs.Digits.{decimal};
ghost use Rattle.writing.specs.Writing.{Writes};

// Writes a text from `at` on, and answers the place after it. Here and in lines, names, answer_lines and book_lines bytes and place are two
// parameters, and no struct of both: `Writes`, which the documents name, states what stands where by the bytes and the place.
pub fn put_text(out: &mut [u8], at: usize, text: &[u8]) -> usize
    requires { at + length text.now ≤ length out.old }
    ensures { Writes out.old at text.now out.new result }
{
    let end = at + text.len();
    out[at..end].copy_from_slice(text);
    end
}

fn put_digit(out: &mut [u8], at: usize, digit: u64) -> usize
    requires { (at < length out.old) × (digit < 10) }
    ensures { Writes out.old at ((48 + digit) ∷ []) out.new result }
{
    out[at] = b'0' + digit as u8;
    at + 1
}

// Writes a number's decimal digits from `at` on, and answers the place after them. By hand: `write!` into lent bytes goes by
// `std::io`, and the crates that write text stay without it.
pub fn put_decimal(out: &mut [u8], at: usize, n: u64) -> usize
    requires { at + length (decimal n) ≤ length out.old }
    ensures { Writes out.old at (decimal n) out.new result }
{
    if n < 10 {
        return put_digit(out, at, n);
    }
    let next = put_decimal(out, at, n / 10);
    put_digit(out, next, n % 10)
}
