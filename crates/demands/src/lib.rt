// No code: the three demands as statements (specs/), and their proofs.

#![tactic(auto)]
