// What may be asked for, and the table of kinds: a kind's number, its entry's length, its parameters, and the request that they make.
#![tactic(auto)]

ghost use Rattle.std.specs.Prelude.{◌≡◌};
ghost use Rattle.kinds.specs.Kinds.{length_in, parameters_in, kind_of, kind_number, length_of, parts_of};
ghost use Rattle.kinds.specs.Inner.{row_of};

// A request of any kind that a book can hold, with its parameters as a book holds them, floats by their 64 bits. Two are equal where they have the
// same kind and the same parameter bits.
#[derive(Clone, Copy, PartialEq, Eq)]
pub enum Request {
    Hypergeometric {
        total: u64,
        marked: u64,
        sample: u64,
    },
    Poisson {
        threshold: u64,
    },
    Geometric {
        p: u64,
    },
    StandardGeometric,
}

// A row of the table: the length of a kind's entry, the number of its parameters, and the request that they make.
#[derive(Clone, Copy, PartialEq, Eq)]
pub struct Row {
    pub length: u64,
    pub parameters: u64,
    pub request: Request,
}

// A request by its kind's number and its parameters, with 0 past the last. (A number and no enum: it is what a book's bytes hold.)
#[derive(Clone, Copy, PartialEq, Eq)]
pub struct Parts {
    pub kind: u16,
    pub first: u64,
    pub second: u64,
    pub third: u64,
}

// ---- from a number

// The table: what a number stands for, with these parameters. Those that a kind does not have are not looked at. Every number that is not
// in the table is refused here, and nowhere else. (One match on the two-byte kind is the form that the rules name. Four numbers and no `Parts`:
// C's `banlothek_deliver`, an entry's bytes and a case of `vectors` each hand them on one by one.)
#[tactic(auto, using(crate::proofs::Table::row_unlisted), unfolding(crate::specs::Kinds::kind_of, crate::specs::Kinds::numbered))]
pub fn row_of(kind: u16, first: u64, second: u64, third: u64) -> Option<Row>
    ensures { result ≡ row_of kind first second third }
{
    let (length, parameters, request) = match kind {
        1 => (
            48,
            3,
            Request::Hypergeometric {
                total: first,
                marked: second,
                sample: third,
            },
        ),
        2 => (32, 1, Request::Poisson { threshold: first }),
        3 => (32, 1, Request::Geometric { p: first }),
        4 => (24, 0, Request::StandardGeometric),
        _ => return None,
    };
    Some(Row {
        length,
        parameters,
        request,
    })
}

// The length of a kind's entry; 0 where the number is no kind's. (0 and no Option: the clause says `length_in (kind_of kind)`, which is 0 for no
// kind. With the next it differs in a field: a helper that takes the field as a closure would be as long.)
pub fn length_by(kind: u16) -> u64
    ensures { result ≡ length_in (kind_of kind) }
{
    row_of(kind, 0, 0, 0).map_or(0, |row| row.length)
}

// The number of a kind's parameters, likewise.
pub fn parameters_by(kind: u16) -> u64
    ensures { result ≡ parameters_in (kind_of kind) }
{
    row_of(kind, 0, 0, 0).map_or(0, |row| row.parameters)
}

// ---- from a request

// A request's number and parameters.
impl From<Request> for Parts {
    ghost from_gives = { λ r p. p ≡ parts_of r };

    fn from(request: Request) -> Parts {
        match request {
            Request::Hypergeometric {
                total,
                marked,
                sample,
            } => Parts {
                kind: 1,
                first: total,
                second: marked,
                third: sample,
            },
            Request::Poisson { threshold } => Parts {
                kind: 2,
                first: threshold,
                second: 0,
                third: 0,
            },
            Request::Geometric { p } => Parts {
                kind: 3,
                first: p,
                second: 0,
                third: 0,
            },
            Request::StandardGeometric => Parts {
                kind: 4,
                first: 0,
                second: 0,
                third: 0,
            },
        }
    }
}

// A request's kind.
pub fn kind_of(request: Request) -> u16
    ensures { result ≡ kind_number request }
{
    Parts::from(request).kind
}

// The length of a request's entry.
pub fn length_of(request: Request) -> u64
    ensures { result ≡ length_of request }
{
    length_by(kind_of(request))
}
