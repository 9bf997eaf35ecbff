// A Poisson draw by its mean, in quarters of a vial: `KnuthMethod` with a threshold from a list, since e^-x is nobody's to work out.
#![tactic(auto)]

ghost use Rattle.std.specs.Prelude.{◌≡◌, ◌≤◌};
ghost use Rattle.words.specs.Draw.{DrawAllows};
ghost use Rattle.quarters.specs.Quarters.{E, most_quarters, threshold_of, quarters};

use words::{Answer, Refusal};

// E(1) to E(47): 2^52 times e^(-j/4), rounded down. tests/thresholds works them out.
const THRESHOLDS: [u64; 47] = [
    3507406916436229,
    2731571253070596,
    2127349830906719,
    1656781714176973,
    1290302896379411,
    1004888906099587,
    782608266970126,
    609495931154489,
    474675908461951,
    369677969215298,
    287905491909121,
    224221022549381,
    174623507942529,
    135996924728317,
    105914511473716,
    82486304474355,
    64240398517294,
    50030472670088,
    38963771292897,
    30345015594323,
    23632721907173,
    18405182327415,
    14333970409162,
    11163307379178,
    8693992528570,
    6770888189267,
    5273173023890,
    4106751280277,
    3198341112959,
    2490870563302,
    1939891945229,
    1510789366018,
    1176603941311,
    916340070858,
    713646364743,
    555788347698,
    432848400409,
    337102673190,
    262535825856,
    204463106760,
    159236027654,
    124013143030,
    96581532903,
    75217773455,
    58579660867,
    45621885756,
    35530360351,
];

// The draw with the mean j / 4. (Its tests are like those of `poisson::sample_bits`, but of another range and with another refusal; what follows them
// is one function.)
pub fn sample(tape: &[u64], j: u64) -> Answer
    ensures { DrawAllows (quarters «j») tape.now result }
{
    if words::too_long(tape) {
        return Err(Refusal::TapeTooLong);
    }
    // Two comparisons and no `contains`: of a number outside, that tells which end it is past only by way of whether the range is spent.
    if j >= 1 && j <= 47 {
        return poisson::knuth_method(tape, threshold(j));
    }
    Err(Refusal::MeanOutside)
}

// The threshold of the mean j / 4: E(j) over 2^52. Both the casts and the division are exact. By way of i64, whose cast is one instruction of
// the machine; that of u64 is several.
fn threshold(j: u64) -> f64
    requires { (1 ≤ j) × (j ≤ most_quarters) }
    ensures { result ≡ threshold_of j }
{
    (numerator(j) as i64 as f64) / 4503599627370496.0
}

// E(j), from the list.
fn numerator(j: u64) -> u64
    requires { (1 ≤ j) × (j ≤ most_quarters) }
    ensures { result ≡ E j }
{
    THRESHOLDS[(j - 1) as usize]
}
