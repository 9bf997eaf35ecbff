// Parts of a line that a program writes: a number and the byte that ends it, a line of a text and a number, the line of a refusal.
#![tactic(auto)]

ghost use Rattle.std.specs.Prelude.{[], ◌∷◌, ◌++◌, ◌+◌, ◌≤◌, ◌<◌, length};
ghost use Rattle.words.specs.Paper.{number_of};
ghost use Rattle.writing.specs.Digits.{decimal};
ghost use Rattle.writing.specs.Writing.{Writes};
ghost use Rattle.lines.specs.Lines.{refused_line};

use words::Refusal;
use writing::{put_decimal, put_text};

// Writes a number and the byte that ends it, a space or a newline; answers the place after them.
pub fn put_number(out: &mut [u8], at: usize, n: u64, end: u8) -> usize
    requires { at + length (decimal n) < length out.old }
    ensures { Writes out.old at (decimal n ++ (end ∷ [])) out.new result }
{
    let next = put_decimal(out, at, n);
    out[next] = end;
    next + 1
}

// Writes a line of a text, which ends in a space, and a number.
pub fn put_numbered(out: &mut [u8], at: usize, text: &[u8], n: u64) -> usize
    requires { at + length text.now + 21 ≤ length out.old }
    ensures { Writes out.old at (text.now ++ (decimal n ++ (10 ∷ []))) out.new result }
{
    let next = put_text(out, at, text);
    put_number(out, next, n, b'\n')
}

// Writes the line of a refusal.
#[tactic(auto, unfolding(crate::specs::Lines::refused_line, crate::specs::Lines::line))]
pub fn put_refused(out: &mut [u8], refusal: Refusal) -> usize
    requires { 32 ≤ length out.old }
    ensures { Writes out.old 0 (refused_line (number_of refusal)) out.new result }
{
    put_numbered(out, 0, b"refused ", u64::from(u32::from(refusal)))
}
