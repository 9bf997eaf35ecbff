// The cases of a block, read and drawn again one by one.
use crate::kept::draw_kept;
use crate::single::draw_single;
use crate::tally::Tally;
use judge::{Said, rust_did};
use kinds::row_of;

// The kind of a case of draws from a kept tray: 1,000 more than a tray's own, which no kind has.
const KEPT_TRAY: u64 = 1_001;

// The kind of a case of a word and its fraction: another that no kind has.
const FRACTION: u64 = 1_002;

// What nothing can be made of.
#[derive(Clone, Copy)]
pub(crate) struct Unread;

// A case: its kind, three parameters, what the Rust did, the entry, and the tape. (A kind is the file's number: two of them are no request's.)
#[derive(Clone, Copy)]
pub(crate) struct Case<'a> {
    pub(crate) kind: u64,
    pub(crate) first: u64,
    pub(crate) second: u64,
    pub(crate) third: u64,
    pub(crate) rust: Said,
    pub(crate) entry: u64,
    pub(crate) tape: &'a [u64],
}

// Draws the cases of a block again.
pub(crate) fn draw_block<P: Print>(words: &[u64], tally: &mut Tally<P>) -> Result<(), Unread> {
    let mut rest = words;
    while let Some(length) = rest.first() {
        if *length == 0 {
            break;
        }
        let (case, after) = rest.split_at_checked(*length as usize).ok_or(Unread)?;
        draw_case(read_case(case).ok_or(Unread)?, tally)?;
        rest = after;
    }
    Ok(())
}

fn read_case(words: &[u64]) -> Option<Case<'_>> {
    let [
        _,
        kind,
        first,
        second,
        third,
        act,
        count,
        used,
        entry,
        tape @ ..,
    ] = words
    else {
        return None;
    };
    Some(Case {
        kind: *kind,
        first: *first,
        second: *second,
        third: *third,
        rust: rust_did(*act, *count, *used as usize),
        entry: *entry,
        tape,
    })
}

// Draws a case again.
fn draw_case<P: Print>(case: Case<'_>, tally: &mut Tally<P>) -> Result<(), Unread> {
    match case.kind {
        KEPT_TRAY => draw_kept(case, tally)?,
        FRACTION => tally.note_fraction(fraction_bits(case.first), case.second),
        _ => {
            let kind = u16::try_from(case.kind).map_err(|_| Unread)?;
            let row = row_of(kind, case.first, case.second, case.third).ok_or(Unread)?;
            draw_single(case, row.request, tally);
        }
    }
    Ok(())
}

// A fraction is a number, so it has bits.
fn fraction_bits(word: u64) -> u64 {
    f64::to_bits(words::fraction(word))
}
