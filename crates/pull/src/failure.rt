// Why the program ends before its input does.
use std::fmt;

#[derive(Clone, Copy)]
pub(crate) enum Failure {
    Usage,
    UnreadTape,
    TapeTooLong,
    UnreadBook,
    UnreadInput,
    // The book can't be written.
    Unwritten,
    // An answer can't be written.
    Unanswered,
}

// The line that tells it.
impl fmt::Display for Failure {
    fn fmt<W: fmt::Write>(&self, f: &mut fmt::Formatter<W>) -> fmt::Result {
        f.write_str(match self {
            Failure::Usage => "usage: pull TAPE BOOK",
            Failure::UnreadTape => "unread tape",
            Failure::TapeTooLong => "tape too long for pull",
            Failure::UnreadBook => "unread book",
            Failure::UnreadInput => "unread input",
            Failure::Unwritten => "unwritten",
            Failure::Unanswered => "unanswered",
        })
    }
}
