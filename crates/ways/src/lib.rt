// No code: in how many ways things can be chosen (specs/), and laws of that number.

#![tactic(auto)]
