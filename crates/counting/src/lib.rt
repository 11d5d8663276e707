// Sums, counts and searches below a bound, and lists of numbers: the definitions that all other crates build on. No code.
#![tactic(auto)]
