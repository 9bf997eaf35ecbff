// A line of the pull service: which lines are read, and as what. None: the line can't be read.
#![tactic(auto)]

ghost use Rattle.std.specs.Prelude.{◌≡◌};
ghost use Rattle.request_line.specs.Words.{words};
ghost use Rattle.request_line.specs.Forms.{any_strike_line, call_line, deliver_line, read_line, read_text, redraw_line, request_asked, strike_from_line, strike_line, tray_asked};

use kinds::Request;
use numerals::{float_bits, whole_number};
use parted::{SPACE, word};

// What a line asks for: a call; or nothing, where it is passed over.
#[derive(Clone, Copy)]
pub enum Line {
    Deliver { serial: u32, request: Request },
    Strike { j: u64 },
    StrikeFrom { j: u64, entries: u64 },
    Redraw,
    Passed,
}

// The most bytes that a line's text may have.
const MOST_BYTES: usize = 255;

const NEWLINE: u8 = b'\n';

const CARRIAGE_RETURN: u8 = b'\r';

// ---- words

// Words are asked for by their place, and kept in no list: RULES' forms name each by its place, and a list would need room for as many words as a
// line may have.

// The number of words, one more than spaces.
fn words(line: &[u8]) -> usize
    ensures { result ≡ words line.now }
{
    line.split(|byte| *byte == SPACE).count()
}

// ---- requests

#[tactic(auto, unfolding(crate::specs::Forms::tray_asked))]
fn tray(line: &[u8]) -> Option<Request>
    ensures { result ≡ tray_asked line.now }
{
    Some(Request::Hypergeometric {
        total: whole_number(word(line, 3), u64::MAX)?,
        marked: whole_number(word(line, 4), u64::MAX)?,
        sample: whole_number(word(line, 5), u64::MAX)?,
    })
}

// The request of a delivery, by the number of words and the name of its kind.
#[tactic(auto, using(crate::proofs::Texts::same_read, crate::proofs::Texts::other_first), unfolding(crate::specs::Forms::request_asked, crate::specs::Forms::poisson_asked, crate::specs::Forms::geometric_asked))]
fn request(line: &[u8]) -> Option<Request>
    ensures { result ≡ request_asked line.now }
{
    match (words(line), word(line, 2)) {
        (6, b"hypergeometric") => tray(line),
        (4, b"poisson") => float_bits(word(line, 3)).map(|threshold| Request::Poisson {
            threshold,
        }),
        (4, b"geometric") => float_bits(word(line, 3)).map(|p| Request::Geometric { p }),
        (3, b"standard") => Some(Request::StandardGeometric),
        _ => None,
    }
}

// ---- lines

#[tactic(auto, using(numerals::proofs::Reading::number_within), unfolding(crate::specs::Forms::deliver_line))]
fn delivery(line: &[u8]) -> Option<Line>
    ensures { result ≡ deliver_line line.now }
{
    let serial = whole_number(word(line, 1), u64::from(u32::MAX))?;
    let serial = u32::try_from(serial).ok()?;
    let request = request(line)?;
    Some(Line::Deliver { serial, request })
}

#[tactic(auto, unfolding(crate::specs::Forms::strike_line))]
fn strike(line: &[u8]) -> Option<Line>
    ensures { result ≡ strike_line line.now }
{
    if words(line) != 2 {
        return None;
    }
    let j = whole_number(word(line, 1), u64::MAX)?;
    Some(Line::Strike { j })
}

// A strike that names how many entries are to stand.
#[tactic(auto, unfolding(crate::specs::Forms::strike_from_line))]
fn strike_from(line: &[u8]) -> Option<Line>
    ensures { result ≡ strike_from_line line.now }
{
    let j = whole_number(word(line, 1), u64::MAX)?;
    let entries = whole_number(word(line, 3), u64::MAX)?;
    Some(Line::StrikeFrom { j, entries })
}

#[tactic(auto, using(crate::proofs::Texts::same_read, crate::proofs::Texts::other_first), unfolding(crate::specs::Forms::any_strike_line))]
fn any_strike(line: &[u8]) -> Option<Line>
    ensures { result ≡ any_strike_line line.now }
{
    match (words(line), word(line, 2)) {
        (4, b"from") => strike_from(line),
        _ => strike(line),
    }
}

#[tactic(auto, unfolding(crate::specs::Forms::redraw_line))]
fn redraw(line: &[u8]) -> Option<Line>
    ensures { result ≡ redraw_line line.now }
{
    (words(line) == 1).then_some(Line::Redraw)
}

// A call, by its first word.
#[tactic(auto, using(crate::proofs::Texts::same_read, crate::proofs::Texts::other_first), unfolding(crate::specs::Forms::call_line))]
fn call(line: &[u8]) -> Option<Line>
    ensures { result ≡ call_line line.now }
{
    match word(line, 0) {
        b"deliver" => delivery(line),
        b"strike" => any_strike(line),
        b"redraw" => redraw(line),
        _ => None,
    }
}

// Reads the text of a line, what stands before its end.
#[tactic(auto, unfolding(crate::specs::Forms::read_text, crate::specs::Forms::is_passed))]
fn text(line: &[u8]) -> Option<Line>
    ensures { result ≡ read_text line.now }
{
    if MOST_BYTES < line.len() {
        return None;
    }
    if line.is_empty() || line[0] == b'#' {
        return Some(Line::Passed);
    }
    call(line)
}

// Reads a line as it came, its newline with it. What was cut off before the newline is no line.
pub fn read(line: &[u8]) -> Option<Line>
    ensures { result ≡ read_line line.now }
{
    let ended = line.strip_suffix(&[NEWLINE])?;
    let bare = ended.strip_suffix(&[CARRIAGE_RETURN]).unwrap_or(ended);
    // In one pass, and not by `contains` for each: most lines are short, and a call of it costs more than an empty line or a comment does.
    if bare
        .iter()
        .any(|byte| *byte == NEWLINE || *byte == CARRIAGE_RETURN)
    {
        return None;
    }
    text(bare)
}
