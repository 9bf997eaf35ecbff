// Draws many times from one kept tray, for bench/run: standard input has N, K, n, the number of draws, and the words of a tape, each as 8
// bytes, the lowest first. Draw i is over the word at place i, counted round. Writes the sum of the counts.
#![tactic(auto)]

ghost use Rattle.std.specs.Prelude.{◌≤◌};

use hypergeometric::Hypergeometric;

const MOST_BYTES: usize = 4_096;

const MOST_WORDS: usize = 512;

// The place after `at`, counted round.
fn next_place(at: usize, words: usize) -> usize
    requires { at ≤ words }
    ensures { result ≤ words }
{
    if 1 < words - at { at + 1 } else { 0 }
}

// The place is counted by hand: the tape is lent from it on, so that a draw asks for its length and its first word as every caller's does. Over a
// part of one word, which an iterator would give, both questions are answered when this is compiled. The draws are counted down, which is an
// instruction less a turn.
fn draw_round(tape: &[u64], kept: Hypergeometric, draws: u64) -> u64 {
    let mut sum: u64 = 0;
    let mut at = 0;
    for _ in (0..draws).rev() {
        // over what is left of the tape no draw is refused; a refusal would add 0
        let answer = hypergeometric::sample_from(&tape[at..], kept);
        sum = sum.wrapping_add(answer.map_or(0, |draw| draw.count));
        at = next_place(at, tape.len());
    }
    sum
}

// N, K, n and the number of draws stand before the tape.
fn draw_many(case: &[u64]) -> u64 {
    let [total, marked, sample, draws, tape @ ..] = case else {
        return 0;
    };
    hypergeometric::set_up(*total, *marked, *sample).map_or(
        0,
        |kept| draw_round(tape, kept, *draws),
    )
}

fn main(rt: HostRuntime) {
    let mut bytes = [0u8; MOST_BYTES];
    let mut case = [0u64; MOST_WORDS];
    let Ok(n) = input::fill(&mut rt.stdin(), &mut bytes) else {
        let _ = println!(rt; "unread input");
        return;
    };
    let count = n / 8;
    bytes_le::read_words(&bytes, count, &mut case, 0);
    let _ = println!(rt; "{}", draw_many(&case[..count]));
}
