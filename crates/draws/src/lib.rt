// One draw of a request of any kind.
#![tactic(auto)]

ghost use Rattle.draws.specs.Request.{Answers};

use kinds::Request;
use words::Answer;

// One draw of the request, from the front of the tape.
pub fn draw(tape: &[u64], request: Request) -> Answer
    ensures { Answers request tape.now result }
{
    match request {
        Request::Hypergeometric {
            total,
            marked,
            sample,
        } => hypergeometric::sample(tape, total, marked, sample),
        Request::Poisson { threshold } => poisson::sample_bits(tape, threshold),
        Request::Geometric { p } => geometric::sample_bits(tape, p),
        Request::StandardGeometric => standard_geometric::sample(tape),
    }
}
