// The first probability of a tray: a fraction of products of factorials, its float steps in the order of rand_distr's hypergeometric.rs.
#![tactic(auto)]

ghost use Rattle.std.specs.Prelude.{◌≡◌, ◌≤◌, ◌^◌};
ghost use Rattle.first_probability.specs.First.{as_float, at_factor, fraction_of_factorials, first_probability};

// By which of the two products it is, as k is below n2 or not. n is the population.
pub fn first_probability(n: u64, n1: u64, n2: u64, k: u64) -> f64
    requires { (n ≤ 2 ^ 53) × (n1 ≤ n) × (n2 ≤ n) × (k ≤ n) }
    ensures { result ≡ first_probability n n1 n2 k }
{
    if k < n2 {
        fraction_of_products_of_factorials(n2, n - k, n, n2 - k)
    } else {
        fraction_of_products_of_factorials(n1, k, n, k - n2)
    }
}

// a!·b! / (c!·d!), a factor after the other.
fn fraction_of_products_of_factorials(a: u64, b: u64, c: u64, d: u64) -> f64
    requires { (a ≤ 2 ^ 53) × (b ≤ 2 ^ 53) × (c ≤ 2 ^ 53) × (d ≤ 2 ^ 53) }
    ensures { result ≡ fraction_of_factorials a b c d }
{
    let f = Factorials {
        min_top: a.min(b),
        min_bottom: c.min(d),
        max_top: a.max(b),
        max_bottom: c.max(d),
    };
    let min_all = f.min_top.min(f.min_bottom);
    let max_all = f.max_top.max(f.max_bottom);
    let mut result = 1.0;
    // the factors up to min_all would cancel out
    for i in min_all..max_all {
        result = f.at_factor(i + 1, result);
    }
    result
}

// The factorials above the line and below it, of each two the lesser and the greater.
#[derive(Clone, Copy)]
struct Factorials {
    min_top: u64,
    min_bottom: u64,
    max_top: u64,
    max_bottom: u64,
}

impl Factorials {
    // One factor i of each of the four that has it. A product and a quotient by the same i are both taken: cancelled, the bits would be
    // others.
    fn at_factor(self, i: u64, mut p: f64) -> f64
        requires { i ≤ 2 ^ 53 }
        ensures { result ≡ at_factor self.min_top self.min_bottom self.max_top self.max_bottom i p }
    {
        let factor = whole(i);
        if i <= self.min_top {
            p *= factor;
        }
        if i <= self.min_bottom {
            p /= factor;
        }
        if i <= self.max_top {
            p *= factor;
        }
        if i <= self.max_bottom {
            p /= factor;
        }
        p
    }
}

// A whole number as a float, up to 2^53 without loss. By way of i64, whose cast is one instruction of the machine; that of u64 is six.
pub fn whole(n: u64) -> f64
    requires { n ≤ 2 ^ 53 }
    ensures { result ≡ as_float n }
{
    (n as i64) as f64
}
