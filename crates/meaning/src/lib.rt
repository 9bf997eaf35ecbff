// No code: what a hypergeometric count means (specs/), and that the reduction and the inversion keep to it.

#![tactic(auto)]
