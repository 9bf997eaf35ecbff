// No code: a book worked by hand, call by call (specs/), and that the rules answer and write just this.

#![tactic(auto)]
