// `StandardGeometric` of rand_distr's geometric.rs.
#![tactic(auto)]

ghost use Rattle.std.specs.Prelude.{◌≡◌, ◌≤◌, length, drop};
ghost use Rattle.words.specs.Words.{most_words};
ghost use Rattle.words.specs.Rule.{more, read};
ghost use Rattle.words.specs.Draw.{DrawAllows};
ghost use Rattle.words.specs.Paper.{paper};
ghost use Rattle.standard_geometric.specs.Standard.{standard_rule, standard_geometric};

use words::{Answer, Draw, Refusal};

// The draw: p is one half, and each leading zero bit a failure. All but one in 2^64 draws end with their first word.
pub fn sample(tape: &[u64]) -> Answer
    ensures { DrawAllows standard_geometric tape.now result }
{
    if words::too_long(tape) {
        return Err(Refusal::TapeTooLong);
    }
    let w = words::word_at(tape, 0).ok_or(Refusal::Exhausted)?;
    if w == 0 {
        return sample_after_zero(tape);
    }
    let count = u64::from(w.leading_zeros());
    Ok(Draw { count, used: 1 })
}

// The same draw from its second word on, where the first is 0: that has 64 leading zeros. It stands apart, since hardly a draw gets here: with the
// first word in this loop each draw costs six instructions more, 37.1 for 31.1.
// That the tape keeps to its limit is asked for: a type that says it would be made for one draw, and taken apart again by word_at, which takes
// the words as they are lent.
fn sample_after_zero(tape: &[u64]) -> Answer
    requires { length tape.now ≤ most_words }
    ensures { paper result ≡ read standard_rule (drop 1 tape.now) (more 64) 1 }
{
    let mut result: u64 = 64;
    // Counted by hand: the words used are a part of what is drawn, and a `for` would need to know where the tape ends, which word_at alone says.
    let mut used: usize = 1;
    loop {
        let w = words::word_at(tape, used).ok_or(Refusal::Exhausted)?;
        let x = u64::from(w.leading_zeros());
        result += x;
        used += 1;
        if x < 64 {
            break;
        }
    }
    Ok(Draw {
        count: result,
        used,
    })
}
