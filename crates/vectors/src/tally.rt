// Counts of cases by group, agreement and entry, and what is written of those that differ.
use crate::cases::Case;
use crate::compare::compare;
use judge::{Said, Verdict, as_marked};
use kinds::Request;
use std::fmt;
use words::Answer;

// Every entry's number is below this.
const ROW: usize = 16;

// So many that differ are written out.
const FEW: u64 = 8;

// What is counted by itself: the draws of each kind, those from a kept tray, and fractions.
#[derive(Clone, Copy)]
pub(crate) enum Group {
    Hypergeometric,
    Kept,
    Poisson,
    Geometric,
    Standard,
    Fraction,
}

impl Group {
    // The group of a request's kind.
    pub(crate) fn of(request: Request) -> Group {
        match request {
            Request::Hypergeometric { .. } => Group::Hypergeometric,
            Request::Poisson { .. } => Group::Poisson,
            Request::Geometric { .. } => Group::Geometric,
            Request::StandardGeometric => Group::Standard,
        }
    }
}

// How the line of a case that differs names its group: by the kind's number, and by one past every kind's where it is no kind's.
impl fmt::Display for Group {
    fn fmt<W: fmt::Write>(&self, f: &mut fmt::Formatter<W>) -> fmt::Result {
        f.write_str(match self {
            Group::Hypergeometric => "1",
            Group::Poisson => "2",
            Group::Geometric => "3",
            Group::Standard => "4",
            Group::Fraction => "14",
            Group::Kept => "15",
        })
    }
}

// The cases of a group, and those of them that agree.
#[derive(Clone, Copy)]
struct Counts {
    cases: u64,
    agree: u64,
}

const NONE: Counts = Counts { cases: 0, agree: 0 };

impl fmt::Display for Counts {
    fn fmt<W: fmt::Write>(&self, f: &mut fmt::Formatter<W>) -> fmt::Result {
        write!(f, "{} agree {}", self.cases, self.agree)
    }
}

// All cases, those of each group, those that each entry lists, by its number, and the others.
#[derive(Drop)]
pub(crate) struct Tally<'a, P> {
    rt: &'a P,
    cases: u64,
    hypergeometric: Counts,
    kept: Counts,
    poisson: Counts,
    geometric: Counts,
    standard: Counts,
    fractions: Counts,
    entries: [u64; ROW],
    others: u64,
}

impl<'a, P: Print> Tally<'a, P> {
    pub(crate) fn new(rt: &'a P) -> Tally<'a, P> {
        Tally {
            rt,
            cases: 0,
            hypergeometric: NONE,
            kept: NONE,
            poisson: NONE,
            geometric: NONE,
            standard: NONE,
            fractions: NONE,
            entries: [0; ROW],
            others: 0,
        }
    }

    // Holds an answer here against what the Rust did, and the entry that the case is marked with.
    pub(crate) fn hold(&mut self, case: Case<'_>, request: Request, group: Group, here: Answer) {
        let verdict = as_marked(case.entry, compare(request, here, case.rust));
        self.note(group, verdict, here, "rust", case.rust);
    }

    // Counts a case by its verdict. Of those that differ the first few are written out: the answer here, and the one that it is held against
    // after its name.
    pub(crate) fn note(
        &mut self,
        group: Group,
        verdict: Verdict,
        here: Answer,
        name: &str,
        due: Said,
    ) {
        if let Some(case) = self.count(group, verdict) {
            let here = Told(here.map_err(u32::from));
            let due = Told(due);
            let _ = println!(self.rt; "differs: case {case} kind {group} here {here} {name} {due}");
        }
    }

    // Counts a fraction by its bits.
    pub(crate) fn note_fraction(&mut self, here: u64, recorded: u64) {
        let verdict = if here == recorded {
            Verdict::Agrees
        } else {
            Verdict::Differs
        };
        if let Some(case) = self.count(Group::Fraction, verdict) {
            let _ = println!(self.rt;
                "differs: case {case} fraction here 0x{here:016x} recorded 0x{recorded:016x}"
            );
        }
    }

    fn counts_of(&mut self, group: Group) -> &mut Counts {
        match group {
            Group::Hypergeometric => &mut self.hypergeometric,
            Group::Kept => &mut self.kept,
            Group::Poisson => &mut self.poisson,
            Group::Geometric => &mut self.geometric,
            Group::Standard => &mut self.standard,
            Group::Fraction => &mut self.fractions,
        }
    }

    // Counts a case of a group by its verdict. Its number, where it is one of the few that are written out.
    fn count(&mut self, group: Group, verdict: Verdict) -> Option<u64> {
        add(&mut self.cases);
        let counts = self.counts_of(group);
        add(&mut counts.cases);
        if verdict == Verdict::Agrees {
            add(&mut counts.agree);
        }
        match verdict {
            Verdict::Agrees => None,
            Verdict::Listed { entry } => {
                if let Some(listed) = self.entries.get_mut(entry as usize) {
                    add(listed);
                }
                None
            }
            Verdict::Differs => {
                let is_told = self.others < FEW;
                add(&mut self.others);
                is_told.then_some(self.cases)
            }
        }
    }

    // Writes all the counts, a line for each group and each entry. Where one can't be written, those after it are still tried.
    pub(crate) fn report(&self) {
        let _ = println!(self.rt; "hypergeometric {}", self.hypergeometric);
        let _ = println!(self.rt; "kept {}", self.kept);
        let _ = println!(self.rt; "poisson {}", self.poisson);
        let _ = println!(self.rt; "geometric {}", self.geometric);
        let _ = println!(self.rt; "standard {}", self.standard);
        let _ = println!(self.rt; "fraction {}", self.fractions);
        for entry in [1, 4, 5, 9, 10] {
            let listed = self.entries[entry];
            let _ = println!(self.rt; "entry {entry} {listed}");
        }
        let _ = println!(self.rt; "cases {}", self.cases);
        let _ = println!(self.rt; "others {}", self.others);
    }
}

fn add(counter: &mut u64) {
    *counter = counter.wrapping_add(1);
}

// How an answer is written.
#[derive(Drop)]
struct Told(Said);

impl fmt::Display for Told {
    fn fmt<W: fmt::Write>(&self, f: &mut fmt::Formatter<W>) -> fmt::Result {
        match self.0 {
            Ok(draw) => write!(f, "{} used {}", draw.count, draw.used),
            Err(number) => write!(f, "refused {number}"),
        }
    }
}
